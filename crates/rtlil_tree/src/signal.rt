//! Reading values and signals.
ghost use Rattle.rtlil_tree.specs.Input.{Reads};
ghost use Rattle.rtlil_tree.specs.Sigs as spec;

use crate::cursor::{Cursor, Sign};
use crate::list::push_one;
use crate::sig::{Const, Sig, SigPart, Slice};
use rtlil_lexer::{TextFault, TextFaultKind, TokenKind};
use sqlite_items::Items;
use std::alloc::Global;

/// How many braces of a signal may be open at once.
const DEEPEST: u32 = 256;

#[tactic(auto, unfolding(crate::specs::Sigs::constant))]
pub(crate) fn constant<'t>(cursor: &mut Cursor<'_, 't>) -> Result<Const<'t>, TextFault>
    ensures { Reads (spec.constant cursor.old) result cursor.new }
{
    match cursor.peek() {
        Some(TokenKind::Integer(n)) => {
            cursor.step();
            Ok(Const::Integer(*n))
        }
        Some(TokenKind::Constant(constant)) => {
            cursor.step();
            Ok(Const::Digits(constant.copied()))
        }
        Some(TokenKind::String(quoted)) => {
            cursor.step();
            Ok(Const::String(quoted.copied()))
        }
        _ => Err(cursor.refuse()),
    }
}

/// Reads a slice, from behind its bracket on.
#[tactic(auto, unfolding(crate::specs::Sigs::slice))]
fn slice(cursor: &mut Cursor<'_, '_>) -> Result<Slice, TextFault>
    ensures { Reads (spec.slice cursor.old) result cursor.new }
{
    let high = cursor.natural()?;
    let low = if cursor.eat(Sign::Colon) {
        cursor.natural()?
    } else {
        high
    };
    cursor.expect(Sign::RightBracket)?;
    Ok(Slice { high, low })
}

#[tactic(auto, unfolding(crate::specs::Sigs::slices))]
fn slices(alloc: Global, cursor: &mut Cursor<'_, '_>) -> Result<Items<Slice>, TextFault>
    ensures { Reads (spec.slices cursor.old) result cursor.new }
{
    let mut found = Items::new(alloc);
    for _turn in 0..cursor.left() {
        if !cursor.eat(Sign::LeftBracket) {
            return Ok(found);
        }
        found.push(slice(cursor)?)?;
    }
    Ok(found)
}

/// Reads the parts of a concatenation and the brace behind them.
#[cycle(signal)]
#[tactic(auto, unfolding(crate::specs::Sigs::parts))]
fn parts<'t>(
    alloc: Global,
    cursor: &mut Cursor<'_, 't>,
    depth: u32,
) -> Result<Items<Sig<'t>>, TextFault>
    ensures { Reads (spec.parts (spec.sig_within depth) cursor.old) result cursor.new }
{
    let mut found = Items::new(alloc);
    for _turn in 0..cursor.left() {
        if cursor.eat(Sign::RightBrace) {
            return Ok(found);
        }
        push_one(alloc, &mut found, sig_within(alloc, cursor, depth)?)?;
    }
    Err(cursor.refuse())
}

/// Reads a concatenation, where so many braces may be open at once.
#[cycle(signal)]
fn braces_within<'t>(
    alloc: Global,
    cursor: &mut Cursor<'_, 't>,
    depth: u32,
) -> Result<Items<Sig<'t>>, TextFault>
    ensures { Reads (spec.braces_within depth cursor.old) result cursor.new }
{
    if depth == 0 {
        return Err(cursor.fault(TextFaultKind::Nesting));
    }
    cursor.step();
    parts(alloc, cursor, depth - 1)
}

#[cycle(signal)]
#[tactic(auto, unfolding(crate::specs::Sigs::part_with))]
fn part_within<'t>(
    alloc: Global,
    cursor: &mut Cursor<'_, 't>,
    depth: u32,
) -> Result<SigPart<'t>, TextFault>
    ensures { Reads (spec.part_with (spec.braces_within depth) cursor.old) result cursor.new }
{
    if cursor.sees(Sign::LeftBrace) {
        return Ok(SigPart::Concatenation(braces_within(alloc, cursor, depth)?));
    }
    match cursor.peek() {
        Some(TokenKind::Identifier(spelling)) => {
            cursor.step();
            Ok(SigPart::Wire(spelling.copied()))
        }
        _ => Ok(SigPart::Const(constant(cursor)?)),
    }
}

#[cycle(signal)]
#[tactic(auto, unfolding(crate::specs::Sigs::sig_with))]
fn sig_within<'t>(
    alloc: Global,
    cursor: &mut Cursor<'_, 't>,
    depth: u32,
) -> Result<Sig<'t>, TextFault>
    ensures { Reads (spec.sig_within depth cursor.old) result cursor.new }
{
    let part = part_within(alloc, cursor, depth)?;
    let slices = slices(alloc, cursor)?;
    Ok(Sig { part, slices })
}

/// Reads a signal.
pub(crate) fn signal<'t>(alloc: Global, cursor: &mut Cursor<'_, 't>) -> Result<Sig<'t>, TextFault>
    ensures { Reads (spec.sig cursor.old) result cursor.new }
{
    sig_within(alloc, cursor, DEEPEST)
}
