//! What a history says so far.
ghost use Rattle.std.specs.Prelude.{◌≡◌, ◌<◌, ◌≤◌, ◌+◌, ◌^◌, [], true, OnOk, OnErr, IfOk, IsOk};
ghost use Rattle.hall_core.specs.Hall.{replayed, room};
ghost use Rattle.hall_core.specs.Replay.{after, unbegun};
ghost use Rattle.hall_core.specs.Legal.{allowed, is_open, some_open, lets, may_begin, may_follow, may_act, is_over};

use crate::entry::{Act, Entry, Goal};
use sim_base::NoMemory;
use std::alloc::Global;

/// What a history says so far, kept up entry by entry.
#[derive(Debug, Drop)]
pub struct Replaying {
    pub n: u64,
    pub goal: Goal,
    pub unsettled: bool,
    pub clients: Vec<bool>,
}

impl Replaying {
    pub fn new(alloc: Global) -> Replaying
        ensures { replayed result ≡ unbegun }
    {
        Replaying {
            n: 0,
            goal: Goal::Hold,
            unsettled: false,
            clients: Vec::new(alloc),
        }
    }

    fn is_open(&self, client: u64) -> bool
        ensures { result ≡ is_open (replayed self.now) client }
    {
        match self.clients.get(client as usize) {
            Some(open) => *open,
            None => false,
        }
    }

    fn some_open(&self) -> bool
        ensures { result ≡ some_open (replayed self.now) }
    {
        self.clients.iter().any(|open| *open)
    }

    /// The goal lets so many more samples be recorded.
    fn lets(&self, more: u64) -> bool
        ensures { result ≡ lets (replayed self.now).goal ((replayed self.now).n + more) }
    {
        match self.goal {
            Goal::To(goal, _) => match self.n.checked_add(more) {
                Some(end) => end <= goal,
                None => false,
            },
            Goal::Hold | Goal::Over => false,
        }
    }

    fn may_begin(&self, entry: Entry) -> bool
        ensures { result ≡ may_begin (replayed self.now) entry }
    {
        match entry {
            Entry::Record(more, hit) => more == 1 && !hit && !self.unsettled,
            Entry::Unsettled => !self.unsettled,
            Entry::End => self.unsettled,
            Entry::Open(_) | Entry::Packet(..) | Entry::Close(..) => false,
        }
    }

    fn may_follow(&self, count: u64, entry: Entry) -> bool
        ensures { result ≡ may_follow count (replayed self.now) entry }
    {
        match entry {
            Entry::Open(client) => client == self.clients.len() as u64,
            Entry::Packet(client, act) => self.is_open(client) && may_act(count, act),
            Entry::Record(more, _) => more >= 1 && self.lets(more) && !self.unsettled,
            Entry::Unsettled => self.lets(1) && !self.unsettled,
            Entry::Close(client, _) => self.is_open(client),
            Entry::End => !self.some_open(),
        }
    }

    pub fn allows(&self, count: u64, entry: Entry) -> bool
        ensures { result ≡ allowed count (replayed self.now) entry }
    {
        if self.goal == Goal::Over {
            return false;
        }
        if self.n == 0 {
            self.may_begin(entry)
        } else {
            self.may_follow(count, entry)
        }
    }

    /// Takes an entry in that is allowed next.
    pub fn take_in(&mut self, count: u64, entry: Entry)
        requires next { allowed count (replayed self.old) entry ≡ true }
        requires room { 0 < room self.old }
        ensures after { replayed self.new ≡ after (replayed self.old) entry }
        ensures room { room self.old ≤ room self.new + 1 }
    {
        match entry {
            Entry::Open(_) => self.clients.push(true).unwrap(),
            Entry::Packet(_, Act::Look) => {}
            Entry::Packet(_, Act::Run(goal, kinds)) => {
                self.goal = if self.n < goal && !self.unsettled {
                    Goal::To(goal, kinds)
                } else {
                    Goal::Hold
                };
            }
            Entry::Packet(_, Act::Pause) => self.goal = Goal::Hold,
            Entry::Record(more, hit) => self.record(count, more, hit),
            Entry::Unsettled => {
                self.goal = Goal::Hold;
                self.unsettled = true;
            }
            Entry::Close(client, _) => self.clients[client as usize] = false,
            Entry::End => self.goal = Goal::Over,
        }
    }

    fn record(&mut self, count: u64, more: u64, hit: bool)
        requires { allowed count (replayed self.old) (Entry.Record more hit) ≡ true }
        ensures after { replayed self.new ≡ after (replayed self.old) (Entry.Record more hit) }
        ensures room { room self.new ≡ room self.old }
    {
        match self.goal {
            Goal::To(goal, _) => {
                self.n += more;
                if hit || self.n == goal {
                    self.goal = Goal::Hold;
                }
            }
            Goal::Hold | Goal::Over => self.n += more,
        }
    }
}

fn may_act(count: u64, act: Act) -> bool
    ensures { result ≡ may_act count act }
{
    match act {
        Act::Run(goal, _) => goal <= count,
        Act::Look | Act::Pause => true,
    }
}
