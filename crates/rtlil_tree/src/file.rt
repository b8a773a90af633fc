//! Reading modules and files.
ghost use Rattle.std.specs.Prelude.{◌≡◌, Ok, IfErr, IfOk};
ghost use Rattle.rtlil_lexer.specs.Tokens.{Fails};
ghost use Rattle.rtlil_tree.specs.Input.{Reads, Steps};
ghost use Rattle.rtlil_tree.specs.Modules as spec;
ghost use Rattle.rtlil_tree.specs.Modules.{parsed};

use crate::action::process_at;
use crate::cursor::{Cursor, Sign};
use crate::draft::{Modules, Statements};
use crate::list::push_one;
use crate::module::{Attribute, File, Module, Statement};
use crate::statement::{assignment, attribute, cell, memory, parameter, wire};
use rtlil_lexer::{TextFault, Token};
use sqlite_items::Items;
use std::alloc::Global;

/// Reads one statement, to which the attributes belong that stand before it.
#[tactic(auto, unfolding(crate::specs::Modules::statement_with))]
fn statement_with<'t>(
    alloc: Global,
    cursor: &mut Cursor<'_, 't>,
    waiting: Items<Attribute<'t>>,
) -> Result<Statement<'t>, TextFault>
    ensures { Reads (spec.statement_with waiting.entry cursor.old) result cursor.new }
{
    let place = cursor.place();
    if cursor.eat_word(b"parameter") {
        Ok(Statement::Parameter(parameter(cursor)?))
    } else if cursor.eat_word(b"wire") {
        Ok(Statement::Wire(wire(cursor, waiting)?))
    } else if cursor.eat_word(b"memory") {
        Ok(Statement::Memory(memory(cursor, waiting)?))
    } else if cursor.eat_word(b"cell") {
        Ok(Statement::Cell(cell(alloc, cursor, waiting)?))
    } else if cursor.eat_word(b"connect") {
        Ok(Statement::Connect(assignment(alloc, cursor)?))
    } else if cursor.eat_word(b"process") {
        Ok(Statement::Process(process_at(alloc, cursor, place)?))
    } else {
        Err(cursor.refuse())
    }
}

/// Reads a statement behind those of a draft.
#[tactic(auto, unfolding(crate::specs::Modules::statement_line))]
fn statement_line<'t>(
    alloc: Global,
    cursor: &mut Cursor<'_, 't>,
    draft: &mut Statements<'t>,
) -> Result<bool, TextFault>
    ensures { Steps (spec.statement_line draft.old cursor.old) result draft.new cursor.new }
{
    let waiting = std::mem::replace(&mut draft.waiting, Items::new(alloc));
    draft.found.push(statement_with(alloc, cursor, waiting)?)?;
    Ok(true)
}

/// Reads one line of a module, or several that belong together, and tells whether more may come.
#[tactic(auto, unfolding(crate::specs::Modules::module_line))]
fn module_line<'t>(
    alloc: Global,
    cursor: &mut Cursor<'_, 't>,
    draft: &mut Statements<'t>,
) -> Result<bool, TextFault>
    ensures { Steps (spec.module_line draft.old cursor.old) result draft.new cursor.new }
{
    if cursor.eat(Sign::EndOfLine) {
        Ok(true)
    } else if cursor.eat_word(b"attribute") {
        push_one(alloc, &mut draft.waiting, attribute(cursor)?)?;
        Ok(true)
    } else if cursor.eat_word(b"end") {
        cursor.expect(Sign::EndOfLine)?;
        Ok(false)
    } else {
        statement_line(alloc, cursor, draft)
    }
}

/// Reads the lines of a module, up to its end.
#[tactic(auto, unfolding(crate::specs::Modules::module_lines))]
fn module_lines<'t>(alloc: Global, cursor: &mut Cursor<'_, 't>) -> Result<Statements<'t>, TextFault>
    ensures { Reads (spec.module_lines cursor.old) result cursor.new }
{
    let mut draft = Statements {
        waiting: Items::new(alloc),
        found: Items::new(alloc),
    };
    for _turn in 0..cursor.left() {
        if !module_line(alloc, cursor, &mut draft)? {
            return Ok(draft);
        }
    }
    Err(cursor.refuse())
}

/// Reads a module, from behind its word on.
#[tactic(auto, unfolding(crate::specs::Modules::module_with))]
fn module_with<'t>(
    alloc: Global,
    cursor: &mut Cursor<'_, 't>,
    attributes: Items<Attribute<'t>>,
) -> Result<Module<'t>, TextFault>
    ensures { Reads (spec.module_with attributes.entry cursor.old) result cursor.new }
{
    let name = cursor.identifier()?;
    cursor.expect(Sign::EndOfLine)?;
    let lines = module_lines(alloc, cursor)?;
    Ok(Module {
        name,
        attributes,
        statements: lines.found,
    })
}

/// Reads a module behind those of a draft, from behind its word on.
#[tactic(auto, unfolding(crate::specs::Modules::module_part))]
fn module_part<'t>(
    alloc: Global,
    cursor: &mut Cursor<'_, 't>,
    draft: &mut Modules<'t>,
) -> Result<bool, TextFault>
    ensures { Steps (spec.module_part draft.old cursor.old) result draft.new cursor.new }
{
    let attributes = std::mem::replace(&mut draft.waiting, Items::new(alloc));
    draft.found.push(module_with(alloc, cursor, attributes)?)?;
    Ok(true)
}

/// Reads one line of a file, or several that belong together, and tells whether more may come.
#[tactic(auto, unfolding(crate::specs::Modules::file_line))]
fn file_line<'t>(
    alloc: Global,
    cursor: &mut Cursor<'_, 't>,
    draft: &mut Modules<'t>,
) -> Result<bool, TextFault>
    ensures { Steps (spec.file_line draft.old cursor.old) result draft.new cursor.new }
{
    if cursor.left() == 0 {
        Ok(false)
    } else if cursor.eat(Sign::EndOfLine) {
        Ok(true)
    } else if cursor.eat_word(b"autoidx") {
        cursor.integer()?;
        cursor.expect(Sign::EndOfLine)?;
        drop(std::mem::replace(&mut draft.waiting, Items::new(alloc)));
        Ok(true)
    } else if cursor.eat_word(b"attribute") {
        push_one(alloc, &mut draft.waiting, attribute(cursor)?)?;
        Ok(true)
    } else if cursor.eat_word(b"module") {
        module_part(alloc, cursor, draft)
    } else {
        Err(cursor.refuse())
    }
}

/// Reads the lines of a file, up to the last.
#[tactic(auto, unfolding(crate::specs::Modules::file_lines))]
fn file_lines<'t>(alloc: Global, cursor: &mut Cursor<'_, 't>) -> Result<Modules<'t>, TextFault>
    ensures { Reads (spec.file_lines cursor.old) result cursor.new }
{
    let mut draft = Modules {
        waiting: Items::new(alloc),
        found: Items::new(alloc),
    };
    for _turn in 0..cursor.left() {
        if !file_line(alloc, cursor, &mut draft)? {
            return Ok(draft);
        }
    }
    Ok(draft)
}

/// Reads a file.
#[tactic(auto, unfolding(crate::specs::Modules::file))]
fn whole_file<'t>(alloc: Global, cursor: &mut Cursor<'_, 't>) -> Result<File<'t>, TextFault>
    ensures { Reads (spec.file cursor.old) result cursor.new }
{
    let lines = file_lines(alloc, cursor)?;
    Ok(File {
        modules: lines.found,
    })
}

/// Reads the tree of a file from its tokens.
///
/// A line ends with `EndOfLine`; brackets stand for what may be left out, braces for what stands any number of times.
///
/// - A file has empty lines, `autoidx` and an integer, attributes and modules.
/// - A module is `module` and an identifier, its lines, and `end`. Its lines are empty lines, attributes, parameters,
///   wires, memories, cells, processes, and `connect` and two signals.
/// - `attribute`, an identifier and a value. An attribute belongs to the module, wire, memory or cell that comes next,
///   and is dropped before anything else.
/// - `parameter`, `[signed]` or `[real]`, an identifier and, which a module's may leave out, a value.
/// - `wire`, options, which are `width` and an integer, `offset` and an integer, `input`, `output` or `inout` and an
///   integer, `upto` and `signed`, and an identifier.
/// - `memory`, options, which are `width`, `size` and `offset`, each with an integer, and an identifier.
/// - `cell` and two identifiers, its type and its name, its lines, and `end`. Its lines are empty lines, attributes,
///   parameters, and `connect`, an identifier and a signal.
/// - A value is a constant, an integer or a string. A signal is a value, an identifier or signals in braces, with any
///   number of slices behind it.
/// - A process is `process` and an identifier, parts of a body, syncs, and `end`. A part of a body is an empty line, an
///   attribute, `assign` and two signals, or a switch. A switch is `switch` and a signal, empty lines, attributes and
///   cases, and `end`. A case is `case`, signals with commas between, and parts of a body. A sync is `sync`, then
///   `always`, `init`, or one of `posedge negedge edge high low` and a signal, and behind it lines `update` and two
///   signals.
///
/// The fault is that of the first token that fits no rule: `Nesting` at a brace or at the word `switch` where 256 of
/// them are open already, `Process` at `global` behind `sync` and at `memwr` where a line of a sync may begin, and
/// `Syntax` at each other one, of which are an integer below 0 as a width or in a slice. Where the tokens end too early,
/// it is `Syntax` at the last one. `NoMemory` comes where there was no memory for the tree, and for nothing else.
pub fn parse<'t>(alloc: Global, tokens: &[Token<'t>]) -> Result<File<'t>, TextFault>
    ensures tree { IfOk result (λ file. parsed tokens.now ≡ Ok file) }
    ensures fault { IfErr result (λ fault. Fails fault (parsed tokens.now)) }
{
    let mut cursor = Cursor::new(tokens);
    whole_file(alloc, &mut cursor)
}
