//! Reading processes.
ghost use Rattle.rtlil_tree.specs.Input.{Reads, Steps};
ghost use Rattle.rtlil_tree.specs.Processes as spec;

use crate::cursor::{Cursor, Sign};
use crate::module::Assignment;
use crate::place::Place;
use crate::process::{Action, Case, Process, Switch, Sync, Trigger};
use crate::sig::Sig;
use crate::signal::signal;
use crate::statement::{assignment, attribute};
use rtlil_lexer::{TextFault, TextFaultKind};
use sqlite_items::Items;
use std::alloc::Global;

/// How many switches may be open at once.
const DEEPEST: u32 = 256;

/// Reads a comma and a signal behind it, if they come next.
#[tactic(auto, unfolding(crate::specs::Processes::further))]
fn further<'t>(
    alloc: Global,
    cursor: &mut Cursor<'_, 't>,
    found: &mut Items<Sig<'t>>,
) -> Result<bool, TextFault>
    ensures { Steps (spec.further found.old cursor.old) result found.new cursor.new }
{
    if !cursor.eat(Sign::Comma) {
        return Ok(false);
    }
    found.push(signal(alloc, cursor)?)?;
    Ok(true)
}

/// Reads as many signals as there are, each behind a comma.
#[tactic(auto, unfolding(crate::specs::Processes::sigs_from))]
fn sigs_from<'t>(
    alloc: Global,
    cursor: &mut Cursor<'_, 't>,
    mut found: Items<Sig<'t>>,
) -> Result<Items<Sig<'t>>, TextFault>
    ensures { Reads (spec.sigs_from found.entry cursor.old) result cursor.new }
{
    for _turn in 0..cursor.left() {
        if !further(alloc, cursor, &mut found)? {
            return Ok(found);
        }
    }
    Ok(found)
}

/// Reads what a case fits, from behind its word on.
#[tactic(auto, unfolding(crate::specs::Processes::compare))]
fn compare<'t>(alloc: Global, cursor: &mut Cursor<'_, 't>) -> Result<Items<Sig<'t>>, TextFault>
    ensures { Reads (spec.compare cursor.old) result cursor.new }
{
    let mut first = Items::new(alloc);
    if cursor.eat(Sign::EndOfLine) {
        return Ok(first);
    }
    first.push(signal(alloc, cursor)?)?;
    let all = sigs_from(alloc, cursor, first)?;
    cursor.expect(Sign::EndOfLine)?;
    Ok(all)
}

/// Reads one part of a body, if it is one.
#[cycle(action)]
#[tactic(auto, unfolding(crate::specs::Processes::body_part))]
fn body_part<'t>(
    alloc: Global,
    cursor: &mut Cursor<'_, 't>,
    depth: u32,
    found: &mut Items<Action<'t>>,
) -> Result<bool, TextFault>
    ensures { Steps (spec.body_part (spec.switch_within depth) found.old cursor.old) result found.new cursor.new }
{
    if cursor.eat(Sign::EndOfLine) {
        Ok(true)
    } else if cursor.eat_word(b"attribute") {
        attribute(cursor)?;
        Ok(true)
    } else if cursor.eat_word(b"assign") {
        found.push(Action::Assign(assignment(alloc, cursor)?))?;
        Ok(true)
    } else if cursor.sees_word(b"switch") {
        found.push(Action::Switch(switch_within(alloc, cursor, depth)?))?;
        Ok(true)
    } else {
        Ok(false)
    }
}

/// Reads the parts of a body, as many as there are.
#[cycle(action)]
#[tactic(auto, unfolding(crate::specs::Processes::body))]
fn body<'t>(
    alloc: Global,
    cursor: &mut Cursor<'_, 't>,
    depth: u32,
) -> Result<Items<Action<'t>>, TextFault>
    ensures { Reads (spec.body (spec.switch_within depth) cursor.old) result cursor.new }
{
    let mut found = Items::new(alloc);
    for _turn in 0..cursor.left() {
        if !body_part(alloc, cursor, depth, &mut found)? {
            return Ok(found);
        }
    }
    Ok(found)
}

/// Reads a case, from behind its word on.
#[cycle(action)]
#[tactic(auto, unfolding(crate::specs::Processes::case))]
fn case<'t>(alloc: Global, cursor: &mut Cursor<'_, 't>, depth: u32) -> Result<Case<'t>, TextFault>
    ensures { Reads (spec.case (spec.switch_within depth) cursor.old) result cursor.new }
{
    let compare = compare(alloc, cursor)?;
    let body = body(alloc, cursor, depth)?;
    Ok(Case { compare, body })
}

/// Reads one part of a switch, and tells whether more may come.
#[cycle(action)]
#[tactic(auto, unfolding(crate::specs::Processes::switch_part))]
fn switch_part<'t>(
    alloc: Global,
    cursor: &mut Cursor<'_, 't>,
    depth: u32,
    found: &mut Items<Case<'t>>,
) -> Result<bool, TextFault>
    ensures { Steps (spec.switch_part (spec.switch_within depth) found.old cursor.old) result found.new cursor.new }
{
    if cursor.eat(Sign::EndOfLine) {
        Ok(true)
    } else if cursor.eat_word(b"attribute") {
        attribute(cursor)?;
        Ok(true)
    } else if cursor.eat_word(b"case") {
        found.push(case(alloc, cursor, depth)?)?;
        Ok(true)
    } else if cursor.eat_word(b"end") {
        cursor.expect(Sign::EndOfLine)?;
        Ok(false)
    } else {
        Err(cursor.refuse())
    }
}

/// Reads the cases of a switch, up to its end.
#[cycle(action)]
#[tactic(auto, unfolding(crate::specs::Processes::cases))]
fn cases<'t>(
    alloc: Global,
    cursor: &mut Cursor<'_, 't>,
    depth: u32,
) -> Result<Items<Case<'t>>, TextFault>
    ensures { Reads (spec.cases (spec.switch_within depth) cursor.old) result cursor.new }
{
    let mut found = Items::new(alloc);
    for _turn in 0..cursor.left() {
        if !switch_part(alloc, cursor, depth, &mut found)? {
            return Ok(found);
        }
    }
    Err(cursor.refuse())
}

/// Reads a switch, from behind its word on.
#[cycle(action)]
#[tactic(auto, unfolding(crate::specs::Processes::switch_with))]
fn switch_with<'t>(
    alloc: Global,
    cursor: &mut Cursor<'_, 't>,
    depth: u32,
) -> Result<Switch<'t>, TextFault>
    ensures { Reads (spec.switch_with (spec.switch_within depth) cursor.old) result cursor.new }
{
    let on = signal(alloc, cursor)?;
    cursor.expect(Sign::EndOfLine)?;
    let cases = cases(alloc, cursor, depth)?;
    Ok(Switch { on, cases })
}

/// Reads a switch, where so many may be open at once.
#[cycle(action)]
fn switch_within<'t>(
    alloc: Global,
    cursor: &mut Cursor<'_, 't>,
    depth: u32,
) -> Result<Switch<'t>, TextFault>
    ensures { Reads (spec.switch_within depth cursor.old) result cursor.new }
{
    if depth == 0 {
        return Err(cursor.fault(TextFaultKind::Nesting));
    }
    cursor.step();
    switch_with(alloc, cursor, depth - 1)
}

/// Reads when updates are made, from behind the word `sync` on.
#[tactic(auto, unfolding(crate::specs::Processes::trigger))]
fn trigger<'t>(alloc: Global, cursor: &mut Cursor<'_, 't>) -> Result<Trigger<'t>, TextFault>
    ensures { Reads (spec.trigger cursor.old) result cursor.new }
{
    if cursor.eat_word(b"always") {
        Ok(Trigger::Always)
    } else if cursor.eat_word(b"init") {
        Ok(Trigger::Init)
    } else if cursor.eat_word(b"posedge") {
        Ok(Trigger::Posedge(signal(alloc, cursor)?))
    } else if cursor.eat_word(b"negedge") {
        Ok(Trigger::Negedge(signal(alloc, cursor)?))
    } else if cursor.eat_word(b"edge") {
        Ok(Trigger::Edge(signal(alloc, cursor)?))
    } else if cursor.eat_word(b"high") {
        Ok(Trigger::High(signal(alloc, cursor)?))
    } else if cursor.eat_word(b"low") {
        Ok(Trigger::Low(signal(alloc, cursor)?))
    } else if cursor.sees_word(b"global") {
        Err(cursor.fault(TextFaultKind::Process))
    } else {
        Err(cursor.refuse())
    }
}

/// Reads one line of a sync, if it is one.
#[tactic(auto, unfolding(crate::specs::Processes::sync_line))]
fn sync_line<'t>(
    alloc: Global,
    cursor: &mut Cursor<'_, 't>,
    found: &mut Items<Assignment<'t>>,
) -> Result<bool, TextFault>
    ensures { Steps (spec.sync_line found.old cursor.old) result found.new cursor.new }
{
    if cursor.eat(Sign::EndOfLine) {
        Ok(true)
    } else if cursor.eat_word(b"update") {
        found.push(assignment(alloc, cursor)?)?;
        Ok(true)
    } else if cursor.sees_word(b"memwr") {
        Err(cursor.fault(TextFaultKind::Process))
    } else {
        Ok(false)
    }
}

/// Reads the lines of a sync, as many as there are.
#[tactic(auto, unfolding(crate::specs::Processes::updates))]
fn updates<'t>(
    alloc: Global,
    cursor: &mut Cursor<'_, 't>,
) -> Result<Items<Assignment<'t>>, TextFault>
    ensures { Reads (spec.updates cursor.old) result cursor.new }
{
    let mut found = Items::new(alloc);
    for _turn in 0..cursor.left() {
        if !sync_line(alloc, cursor, &mut found)? {
            return Ok(found);
        }
    }
    Ok(found)
}

/// Reads a sync, from behind its word on.
#[tactic(auto, unfolding(crate::specs::Processes::sync))]
fn sync<'t>(alloc: Global, cursor: &mut Cursor<'_, 't>) -> Result<Sync<'t>, TextFault>
    ensures { Reads (spec.sync cursor.old) result cursor.new }
{
    let when = trigger(alloc, cursor)?;
    cursor.expect(Sign::EndOfLine)?;
    let updates = updates(alloc, cursor)?;
    Ok(Sync { when, updates })
}

/// Reads one sync, if it is one.
#[tactic(auto, unfolding(crate::specs::Processes::sync_part))]
fn sync_part<'t>(
    alloc: Global,
    cursor: &mut Cursor<'_, 't>,
    found: &mut Items<Sync<'t>>,
) -> Result<bool, TextFault>
    ensures { Steps (spec.sync_part found.old cursor.old) result found.new cursor.new }
{
    if !cursor.eat_word(b"sync") {
        return Ok(false);
    }
    found.push(sync(alloc, cursor)?)?;
    Ok(true)
}

/// Reads the syncs of a process, as many as there are.
#[tactic(auto, unfolding(crate::specs::Processes::syncs))]
fn syncs<'t>(alloc: Global, cursor: &mut Cursor<'_, 't>) -> Result<Items<Sync<'t>>, TextFault>
    ensures { Reads (spec.syncs cursor.old) result cursor.new }
{
    let mut found = Items::new(alloc);
    for _turn in 0..cursor.left() {
        if !sync_part(alloc, cursor, &mut found)? {
            return Ok(found);
        }
    }
    Ok(found)
}

/// Reads a process, from behind its word on, which stands at this place.
#[tactic(auto, unfolding(crate::specs::Processes::process))]
pub(crate) fn process_at<'t>(
    alloc: Global,
    cursor: &mut Cursor<'_, 't>,
    place: Place,
) -> Result<Process<'t>, TextFault>
    ensures { Reads (spec.process place cursor.old) result cursor.new }
{
    let name = cursor.identifier()?;
    cursor.expect(Sign::EndOfLine)?;
    let body = body(alloc, cursor, DEEPEST)?;
    let syncs = syncs(alloc, cursor)?;
    cursor.expect_word(b"end")?;
    cursor.expect(Sign::EndOfLine)?;
    Ok(Process {
        place,
        name,
        body,
        syncs,
    })
}
