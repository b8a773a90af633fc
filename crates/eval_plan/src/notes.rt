//! Entries that are added one by one, none twice.
ghost use Rattle.std.specs.Prelude.{◌≡◌, ℕ, ◌+◌, ◌<◌, [], length, IfOk, OnOk};
ghost use Rattle.eval_plan.specs.TableInvariants.{AreHeld, AreNoted, Grows, Noted, nobody};
ghost use Rattle.driver_check.specs.Numbers.{IsIn};
ghost use Rattle.driver_check.specs.Search.{Needs};

use crate::entries::Entry;
use driver_check::Span;
use sim_base::NoMemory;
use std::alloc::Global;

/// Entries, and for each row the number that was added last, or else 2^32 - 1.
#[derive(Debug, Drop)]
pub struct Notes {
    pub entries: Vec<Entry>,
    pub last: Vec<u32>,
}

impl Notes {
    /// No entries in so many rows.
    pub fn new(alloc: Global, rows: usize) -> Result<Notes, NoMemory>
        ensures entries { IfOk result (λ n. n.entries.items ≡ []) }
        ensures long { IfOk result (λ n. length n.last.items ≡ rows) }
        ensures noted { IfOk result (λ n. AreNoted n.entries.items n.last.items 0) }
    {
        Ok(Notes {
            entries: Vec::new(alloc),
            last: vec![in alloc; u32::MAX; rows]?,
        })
    }

    /// Adds a number to a row, unless it was the last there.
    fn note(&mut self, row: usize, value: u32) -> Result<(), NoMemory>
        requires row { row < length self.old.last.items }
        requires value { value < nobody }
        requires noted { AreNoted self.old.entries.items self.old.last.items value }
        ensures long { length self.new.last.items ≡ length self.old.last.items }
        ensures noted { OnOk result (AreNoted self.new.entries.items self.new.last.items value) }
        ensures grows { OnOk result (Grows self.old.entries.items self.new.entries.items (λ r k. (r ≡ row) × (k ≡ value))) }
    {
        if self.last[row] != value {
            self.last[row] = value;
            self.entries.push(Entry { row, value })?;
        }
        Ok(())
    }

    /// Notes the root that holds a bit, if there is one.
    fn note_bit(&mut self, holders: &[u32], number: usize, value: u32) -> Result<(), NoMemory>
        requires there { number < length holders.now }
        requires held { AreHeld holders.now (length self.old.last.items) }
        requires value { value < nobody }
        requires noted { AreNoted self.old.entries.items self.old.last.items value }
        ensures long { length self.new.last.items ≡ length self.old.last.items }
        ensures noted { OnOk result (AreNoted self.new.entries.items self.new.last.items value) }
        ensures grows { OnOk result (Grows self.old.entries.items self.new.entries.items (Noted (λ w. w ≡ number) holders.now value)) }
    {
        let root = holders[number];
        if root == u32::MAX {
            return Ok(());
        }
        self.note(root as usize, value)
    }

    /// Notes the roots that hold the bits of a span.
    fn note_span(&mut self, holders: &[u32], span: Span, value: u32) -> Result<(), NoMemory>
        requires there { (w : ℕ) → IsIn span.first span.width w → w < length holders.now }
        requires held { AreHeld holders.now (length self.old.last.items) }
        requires value { value < nobody }
        requires noted { AreNoted self.old.entries.items self.old.last.items value }
        ensures long { length self.new.last.items ≡ length self.old.last.items }
        ensures noted { OnOk result (AreNoted self.new.entries.items self.new.last.items value) }
        ensures grows { OnOk result (Grows self.old.entries.items self.new.entries.items (Noted (IsIn span.first span.width) holders.now value)) }
    {
        for at in 0..span.width {
            self.note_bit(holders, span.first + at, value)?;
        }
        Ok(())
    }

    /// Notes the roots that hold the bits of a row of spans.
    pub fn note_row(&mut self, holders: &[u32], row: &[Span], value: u32) -> Result<(), NoMemory>
        requires there { (w : ℕ) → Needs row.now w → w < length holders.now }
        requires held { AreHeld holders.now (length self.old.last.items) }
        requires value { value < nobody }
        requires noted { AreNoted self.old.entries.items self.old.last.items value }
        ensures long { length self.new.last.items ≡ length self.old.last.items }
        ensures noted { OnOk result (AreNoted self.new.entries.items self.new.last.items value) }
        ensures grows { OnOk result (Grows self.old.entries.items self.new.entries.items (Noted (Needs row.now) holders.now value)) }
    {
        for span in row {
            self.note_span(holders, *span, value)?;
        }
        Ok(())
    }
}
