//! The log of a history.
ghost use Rattle.std.specs.Prelude.{◌≡◌, ◌++◌, IfOk, OnOk, decimal};
ghost use Rattle.hall_core.specs.Hall.{entries};
ghost use Rattle.hall_core.specs.LogText.{act_text, entry_text, kinds_text, line, log_text, why_text};

use crate::entry::{Act, Entry, Why};
use crate::history::History;
use itoa::Buffer;
use sim_base::{Kinds, NoMemory};
use std::alloc::Global;

/// The log of a history: one line for each entry, in order.
///
/// `open C`; `packet C`, `packet C run M` with ` assert`, ` assume` or both behind it, `packet C pause`; `record M`,
/// `record M hit`; `unsettled`; `close C WHY`, WHY being `ended`, `fault`, `too_long`, `slow`, `limit`, `memory` or
/// `over`; `end`.
pub fn log_text(alloc: Global, history: &History) -> Result<Vec<u8>, NoMemory>
    ensures { IfOk result (λ text. text.items ≡ log_text (entries history.now)) }
{
    let mut text = Vec::new(alloc);
    for entry in history.as_slice() {
        push_line(&mut text, entry)?;
    }
    Ok(text)
}

fn push_line(text: &mut Vec<u8>, entry: &Entry) -> Result<(), NoMemory>
    ensures { OnOk result (text.new.items ≡ text.old.items ++ line entry.now) }
{
    push_entry(text, entry)?;
    text.push(b'\n')?;
    Ok(())
}

fn push_entry(text: &mut Vec<u8>, entry: &Entry) -> Result<(), NoMemory>
    ensures { OnOk result (text.new.items ≡ text.old.items ++ entry_text entry.now) }
{
    match entry {
        Entry::Open(client) => push_numbered(text, b"open ", *client)?,
        Entry::Packet(client, act) => {
            push_numbered(text, b"packet ", *client)?;
            push_act(text, act)?;
        }
        Entry::Record(more, hit) => {
            push_numbered(text, b"record ", *more)?;
            if *hit {
                text.extend_from_slice(b" hit")?;
            }
        }
        Entry::Unsettled => text.extend_from_slice(b"unsettled")?,
        Entry::Close(client, why) => {
            push_numbered(text, b"close ", *client)?;
            text.extend_from_slice(word_of(why))?;
        }
        Entry::End => text.extend_from_slice(b"end")?,
    }
    Ok(())
}

fn push_numbered(text: &mut Vec<u8>, word: &[u8], number: u64) -> Result<(), NoMemory>
    ensures { OnOk result (text.new.items ≡ text.old.items ++ (word.now ++ decimal number)) }
{
    let mut buffer = Buffer::new();
    text.extend_from_slice(word)?;
    text.extend_from_slice(buffer.format(number).as_bytes())?;
    Ok(())
}

fn push_act(text: &mut Vec<u8>, act: &Act) -> Result<(), NoMemory>
    ensures { OnOk result (text.new.items ≡ text.old.items ++ act_text act.now) }
{
    match act {
        Act::Look => {}
        Act::Run(goal, kinds) => {
            push_numbered(text, b" run ", *goal)?;
            push_kinds(text, *kinds)?;
        }
        Act::Pause => text.extend_from_slice(b" pause")?,
    }
    Ok(())
}

fn push_kinds(text: &mut Vec<u8>, kinds: Kinds) -> Result<(), NoMemory>
    ensures { OnOk result (text.new.items ≡ text.old.items ++ kinds_text kinds) }
{
    if kinds.asserts {
        text.extend_from_slice(b" assert")?;
    }
    if kinds.assumes {
        text.extend_from_slice(b" assume")?;
    }
    Ok(())
}

fn word_of(why: &Why) -> &'static [u8]
    ensures { result.now ≡ why_text why.now }
{
    match why {
        Why::Ended => b" ended",
        Why::Fault => b" fault",
        Why::TooLong => b" too_long",
        Why::Slow => b" slow",
        Why::Limit => b" limit",
        Why::Memory => b" memory",
        Why::Over => b" over",
    }
}
