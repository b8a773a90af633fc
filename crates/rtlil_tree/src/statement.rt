//! Reading the lines of a module.
ghost use Rattle.std.specs.Prelude.{◌≡◌};
ghost use Rattle.rtlil_tree.specs.Input.{Reads, Steps};
ghost use Rattle.rtlil_tree.specs.Statements as spec;

use crate::cursor::{Cursor, Sign};
use crate::module::{
    Assignment, Attribute, Cell, Connection, Memory, MemoryOptions, Parameter, ParameterKind,
    Setting, Wire, WireOptions,
};
use crate::sig::Const;
use crate::signal::{constant, signal};
use rtlil_lexer::{Spelling, TextFault};
use sqlite_items::Items;
use std::alloc::Global;

/// Reads an attribute, from behind its word on.
#[tactic(auto, unfolding(crate::specs::Statements::attribute))]
pub(crate) fn attribute<'t>(cursor: &mut Cursor<'_, 't>) -> Result<Attribute<'t>, TextFault>
    ensures { Reads (spec.attribute cursor.old) result cursor.new }
{
    let name = cursor.identifier()?;
    let value = constant(cursor)?;
    cursor.expect(Sign::EndOfLine)?;
    Ok(Attribute { name, value })
}

/// Reads two signals and the line's end.
#[tactic(auto, unfolding(crate::specs::Statements::assignment))]
pub(crate) fn assignment<'t>(
    alloc: Global,
    cursor: &mut Cursor<'_, 't>,
) -> Result<Assignment<'t>, TextFault>
    ensures { Reads (spec.assignment cursor.old) result cursor.new }
{
    let left = signal(alloc, cursor)?;
    let right = signal(alloc, cursor)?;
    cursor.expect(Sign::EndOfLine)?;
    Ok(Assignment { left, right })
}

#[tactic(auto, unfolding(crate::specs::Statements::parameter_kind))]
fn parameter_kind(cursor: &mut Cursor<'_, '_>) -> Result<ParameterKind, TextFault>
    ensures { Reads (spec.parameter_kind cursor.old) result cursor.new }
{
    if cursor.eat_word(b"signed") {
        Ok(ParameterKind::Signed)
    } else if cursor.eat_word(b"real") {
        Ok(ParameterKind::Real)
    } else {
        Ok(ParameterKind::Plain)
    }
}

#[tactic(auto, unfolding(crate::specs::Statements::default))]
fn default<'t>(cursor: &mut Cursor<'_, 't>) -> Result<Option<Const<'t>>, TextFault>
    ensures { Reads (spec.default cursor.old) result cursor.new }
{
    if cursor.sees(Sign::EndOfLine) {
        Ok(None)
    } else {
        Ok(Some(constant(cursor)?))
    }
}

/// Reads a parameter of a module, from behind its word on.
#[tactic(auto, unfolding(crate::specs::Statements::parameter))]
pub(crate) fn parameter<'t>(cursor: &mut Cursor<'_, 't>) -> Result<Parameter<'t>, TextFault>
    ensures { Reads (spec.parameter cursor.old) result cursor.new }
{
    let kind = parameter_kind(cursor)?;
    let name = cursor.identifier()?;
    let default = default(cursor)?;
    cursor.expect(Sign::EndOfLine)?;
    Ok(Parameter {
        kind,
        name,
        default,
    })
}

/// Reads one option of a wire, if it comes next.
#[tactic(auto, unfolding(crate::specs::Statements::wire_option))]
fn wire_option(cursor: &mut Cursor<'_, '_>, options: &mut WireOptions) -> Result<bool, TextFault>
    ensures { Steps (spec.wire_option options.old cursor.old) result options.new cursor.new }
{
    if cursor.eat_word(b"width") {
        options.width = cursor.natural()?;
    } else if cursor.eat_word(b"offset") {
        options.offset = cursor.integer()?;
    } else if cursor.eat_word(b"input") {
        options.input = Some(cursor.integer()?);
    } else if cursor.eat_word(b"output") {
        options.output = Some(cursor.integer()?);
    } else if cursor.eat_word(b"inout") {
        options.inout = Some(cursor.integer()?);
    } else if cursor.eat_word(b"upto") {
        options.upto = true;
    } else if cursor.eat_word(b"signed") {
        options.signed = true;
    } else {
        return Ok(false);
    }
    Ok(true)
}

#[tactic(auto, unfolding(crate::specs::Statements::wire_options))]
fn wire_options(cursor: &mut Cursor<'_, '_>) -> Result<WireOptions, TextFault>
    ensures { Reads (spec.wire_options cursor.old) result cursor.new }
{
    let mut options = WireOptions {
        width: 1,
        offset: 0,
        input: None,
        output: None,
        inout: None,
        upto: false,
        signed: false,
    };
    for _turn in 0..cursor.left() {
        if !wire_option(cursor, &mut options)? {
            return Ok(options);
        }
    }
    Ok(options)
}

/// Reads a wire, from behind its word on.
#[tactic(auto, unfolding(crate::specs::Statements::wire))]
pub(crate) fn wire<'t>(
    cursor: &mut Cursor<'_, 't>,
    attributes: Items<Attribute<'t>>,
) -> Result<Wire<'t>, TextFault>
    ensures { Reads (spec.wire attributes.entry cursor.old) result cursor.new }
{
    let options = wire_options(cursor)?;
    let name = cursor.identifier()?;
    cursor.expect(Sign::EndOfLine)?;
    Ok(Wire {
        name,
        options,
        attributes,
    })
}

/// Reads one option of a memory, if it comes next.
#[tactic(auto, unfolding(crate::specs::Statements::memory_option))]
fn memory_option(
    cursor: &mut Cursor<'_, '_>,
    options: &mut MemoryOptions,
) -> Result<bool, TextFault>
    ensures { Steps (spec.memory_option options.old cursor.old) result options.new cursor.new }
{
    if cursor.eat_word(b"width") {
        options.width = cursor.natural()?;
    } else if cursor.eat_word(b"size") {
        options.size = cursor.integer()?;
    } else if cursor.eat_word(b"offset") {
        options.offset = cursor.integer()?;
    } else {
        return Ok(false);
    }
    Ok(true)
}

#[tactic(auto, unfolding(crate::specs::Statements::memory_options))]
fn memory_options(cursor: &mut Cursor<'_, '_>) -> Result<MemoryOptions, TextFault>
    ensures { Reads (spec.memory_options cursor.old) result cursor.new }
{
    let mut options = MemoryOptions {
        width: 1,
        size: 0,
        offset: 0,
    };
    for _turn in 0..cursor.left() {
        if !memory_option(cursor, &mut options)? {
            return Ok(options);
        }
    }
    Ok(options)
}

/// Reads a memory, from behind its word on.
#[tactic(auto, unfolding(crate::specs::Statements::memory))]
pub(crate) fn memory<'t>(
    cursor: &mut Cursor<'_, 't>,
    attributes: Items<Attribute<'t>>,
) -> Result<Memory<'t>, TextFault>
    ensures { Reads (spec.memory attributes.entry cursor.old) result cursor.new }
{
    let options = memory_options(cursor)?;
    let name = cursor.identifier()?;
    cursor.expect(Sign::EndOfLine)?;
    Ok(Memory {
        name,
        options,
        attributes,
    })
}

/// Reads what a cell gives a parameter, from behind its word on.
#[tactic(auto, unfolding(crate::specs::Statements::setting))]
fn setting<'t>(cursor: &mut Cursor<'_, 't>) -> Result<Setting<'t>, TextFault>
    ensures { Reads (spec.setting cursor.old) result cursor.new }
{
    let kind = parameter_kind(cursor)?;
    let name = cursor.identifier()?;
    let value = constant(cursor)?;
    cursor.expect(Sign::EndOfLine)?;
    Ok(Setting { kind, name, value })
}

/// Reads what a port of a cell is joined to, from behind its word on.
#[tactic(auto, unfolding(crate::specs::Statements::connection))]
fn connection<'t>(alloc: Global, cursor: &mut Cursor<'_, 't>) -> Result<Connection<'t>, TextFault>
    ensures { Reads (spec.connection cursor.old) result cursor.new }
{
    let port = cursor.identifier()?;
    let sig = signal(alloc, cursor)?;
    cursor.expect(Sign::EndOfLine)?;
    Ok(Connection { port, sig })
}

/// Reads one line of a cell, and tells whether more may come.
#[tactic(auto, unfolding(crate::specs::Statements::cell_line))]
fn cell_line<'t>(
    alloc: Global,
    cursor: &mut Cursor<'_, 't>,
    cell: &mut Cell<'t>,
) -> Result<bool, TextFault>
    ensures { Steps (spec.cell_line cell.old cursor.old) result cell.new cursor.new }
{
    if cursor.eat(Sign::EndOfLine) {
        Ok(true)
    } else if cursor.eat_word(b"attribute") {
        attribute(cursor)?;
        Ok(true)
    } else if cursor.eat_word(b"parameter") {
        cell.settings.push(setting(cursor)?)?;
        Ok(true)
    } else if cursor.eat_word(b"connect") {
        cell.connections.push(connection(alloc, cursor)?)?;
        Ok(true)
    } else if cursor.eat_word(b"end") {
        cursor.expect(Sign::EndOfLine)?;
        Ok(false)
    } else {
        Err(cursor.refuse())
    }
}

/// A cell that has nothing yet.
fn opened<'t>(
    alloc: Global,
    kind: Spelling<'t>,
    name: Spelling<'t>,
    attributes: Items<Attribute<'t>>,
) -> Cell<'t>
    ensures { result ≡ spec.opened kind.entry name.entry attributes.entry }
{
    Cell {
        kind,
        name,
        attributes,
        settings: Items::new(alloc),
        connections: Items::new(alloc),
    }
}

/// Reads the lines of a cell, up to its end.
#[tactic(auto, unfolding(crate::specs::Statements::cell_lines))]
fn cell_lines<'t>(
    alloc: Global,
    cursor: &mut Cursor<'_, 't>,
    mut cell: Cell<'t>,
) -> Result<Cell<'t>, TextFault>
    ensures { Reads (spec.cell_lines cell.entry cursor.old) result cursor.new }
{
    for _turn in 0..cursor.left() {
        if !cell_line(alloc, cursor, &mut cell)? {
            return Ok(cell);
        }
    }
    Err(cursor.refuse())
}

/// Reads a cell, from behind its word on.
#[tactic(auto, unfolding(crate::specs::Statements::cell))]
pub(crate) fn cell<'t>(
    alloc: Global,
    cursor: &mut Cursor<'_, 't>,
    attributes: Items<Attribute<'t>>,
) -> Result<Cell<'t>, TextFault>
    ensures { Reads (spec.cell attributes.entry cursor.old) result cursor.new }
{
    let kind = cursor.identifier()?;
    let name = cursor.identifier()?;
    cursor.expect(Sign::EndOfLine)?;
    cell_lines(alloc, cursor, opened(alloc, kind, name, attributes))
}
