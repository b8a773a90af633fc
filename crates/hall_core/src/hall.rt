//! The history with what it says, kept up entry by entry.
ghost use Rattle.std.specs.Prelude.{◌≡◌, ◌≢◌, ◌<◌, ◌≤◌, ◌+◌, [], ◌∷◌, ◌++◌, true, IfOk, IsOk, OnOk, OnErr};
ghost use Rattle.hall_core.specs.Hall.{entries};
ghost use Rattle.hall_core.specs.Replay.{replay};
ghost use Rattle.hall_core.specs.Legal.{RunFacts, Legal, Meets, allowed};

use crate::entry::{Entry, Goal};
use crate::history::History;
use crate::replaying::Replaying;
use sim_base::NoMemory;
use std::alloc::Global;
use std::marker::Model;

/// The history of one run. A contract sees the number of the run's samples, the list of entries, and how many
/// steps take no memory.
#[derive(Debug, Drop)]
pub struct Hall {
    count: u64,
    history: History,
    replaying: Replaying,
}

impl Model for Hall {
    ghost use Rattle.std.specs.Prelude.{◌≡◌};
    ghost use Rattle.hall_core.specs.Hall.{Seen, entries, spare, replayed};
    ghost use Rattle.hall_core.specs.Replay.{replay};

    ghost Value = { Seen };

    ghost view = { λ h. record { count = h.count; history = entries h.history; spare = spare h.history h.replaying } };

    ghost invariant = { λ h. replayed h.replaying ≡ replay (entries h.history) };
}

impl Hall {
    /// The empty history of a run of `count` samples.
    pub fn new(alloc: Global, count: u64) -> Result<Hall, NoMemory>
        ensures { IfOk result (λ hall. (hall.count ≡ count) × (hall.history ≡ [])) }
    {
        Ok(Hall {
            count,
            history: History::new(Vec::new(alloc)),
            replaying: Replaying::new(alloc),
        })
    }

    /// Whether the entry may come next, where what the run's samples are is left aside.
    pub fn allows(&self, entry: Entry) -> bool
        ensures { result ≡ allowed self.now.count (replay self.now.history) entry }
    {
        self.replaying.allows(self.count, entry)
    }

    /// Adds an entry that may come next.
    pub fn step(&mut self, entry: Entry) -> Result<(), NoMemory>
        requires { allowed self.old.count (replay self.old.history) entry ≡ true }
        ensures added { OnOk result (self.new.history ≡ self.old.history ++ entry ∷ []) }
        // A legal history, or an empty one, is legal then for each run that the entry fits too.
        ensures legal { OnOk result ((run : RunFacts) → run.count ≡ self.old.count
            → (self.old.history ≢ [] → Legal run self.old.history)
            → Meets run (replay self.old.history) entry → Legal run self.new.history) }
        ensures same_run { self.new.count ≡ self.old.count }
        ensures spare { 0 < self.old.spare → IsOk result }
        ensures spare_left { self.old.spare ≤ self.new.spare + 1 }
        ensures refused { OnErr result (self.new ≡ self.old) }
    {
        self.history.list.reserve(1)?;
        self.replaying.clients.reserve(1)?;
        self.history.list.push(entry).unwrap();
        self.replaying.take_in(self.count, entry);
        Ok(())
    }

    /// Makes room for so many steps.
    pub fn reserve(&mut self, more: u32) -> Result<(), NoMemory>
        ensures spare { OnOk result (more ≤ self.new.spare) }
        ensures never_less { self.old.spare ≤ self.new.spare }
        ensures history { self.new.history ≡ self.old.history }
        ensures same_run { self.new.count ≡ self.old.count }
    {
        self.history.list.reserve(more as usize)?;
        self.replaying.clients.reserve(more as usize)?;
        Ok(())
    }

    /// How far samples are to be recorded.
    pub fn goal(&self) -> Goal
        ensures { result ≡ (replay self.now.history).goal }
    {
        self.replaying.goal
    }

    /// The number of samples recorded.
    pub fn n(&self) -> u64
        ensures { result ≡ (replay self.now.history).n }
    {
        self.replaying.n
    }

    pub fn history(&self) -> &History
        ensures { entries result.now ≡ self.now.history }
    {
        &self.history
    }
}
