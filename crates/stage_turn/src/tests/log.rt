//! A small value for a turn to keep.
ghost use Rattle.std.specs.Prelude.{◌≡◌, [], IfOk, IfErr, false};
ghost use Rattle.stage_turn.specs.Kept.{client, writer, nobody};
ghost use Rattle.stage_turn.specs.TestLog.{Adds, Opens, opening_of};

use crate::kept::Kept;
use sim_base::NoMemory;
use std::alloc::Global;
use std::marker::Model;

/// An entry of a client, of nobody where it ends the log, and else of the writer.
#[derive(Drop)]
pub struct Entry {
    pub client: Option<u64>,
    pub opens: bool,
    pub ends: bool,
    pub number: u64,
}

impl Model for Entry {
    ghost use Rattle.stage_turn.specs.TestLog.{Noted, owner_from};

    ghost Value = { Noted };

    ghost view = { λ e. record { owner = owner_from e.client e.ends; opens = e.opens; number = e.number } };
}

impl Entry {
    pub fn record(number: u64) -> Entry
        ensures { result ≡ record { owner = writer; opens = false; number = number } }
    {
        Entry {
            client: None,
            opens: false,
            ends: false,
            number,
        }
    }

    pub fn open(client: u64) -> Entry
        ensures { result ≡ opening_of client }
    {
        Entry {
            client: Some(client),
            opens: true,
            ends: false,
            number: 0,
        }
    }

    pub fn packet(from: u64, number: u64) -> Entry
        ensures owner { result.owner ≡ client from }
        ensures number { (result.opens ≡ false) × (result.number ≡ number) }
    {
        Entry {
            client: Some(from),
            opens: false,
            ends: false,
            number,
        }
    }

    /// The last entry of a client.
    pub fn close(from: u64) -> Entry
        ensures owner { result.owner ≡ client from }
        ensures plain { result.opens ≡ false }
    {
        Entry::packet(from, u64::MAX)
    }

    pub fn end() -> Entry
        ensures { result ≡ record { owner = nobody; opens = false; number = 0 } }
    {
        Entry {
            client: None,
            opens: false,
            ends: true,
            number: 0,
        }
    }

    pub fn is_same(&self, other: &Entry) -> bool {
        self.client == other.client
            && self.opens == other.opens
            && self.ends == other.ends
            && self.number == other.number
    }
}

/// Clients are numbered in the order in which they are opened.
#[derive(Drop)]
pub struct Log {
    run: u64,
    pub entries: Vec<Entry, Global>,
    opened: u64,
}

impl Model for Log {
    ghost use Rattle.std.specs.Prelude.{◌<◌, All};
    ghost use Rattle.stage_turn.specs.TestLog.{Logged, clients_of};

    ghost Value = { Logged };

    ghost view = { λ l. record { run = l.run; entries = l.entries.items } };

    ghost invariant = { λ l. All (λ c. c < l.opened) (clients_of l.entries.items) };
}

impl Kept for Log {
    ghost use Rattle.stage_turn.specs.TestLog.{log_reading};

    type Run = u64;

    type Entry = Entry;

    ghost reading = { log_reading };

    fn length(&self) -> u64 {
        self.entries.len() as u64
    }

    ghost opens_once = { λ x once. once };
}

impl Log {
    pub fn new(alloc: Global, run: u64) -> Log
        ensures { (result.run ≡ run) × (result.entries ≡ []) }
    {
        Log {
            run,
            entries: Vec::new(alloc),
            opened: 0,
        }
    }

    /// Opens the next client.
    pub fn open(&mut self) -> Result<u64, NoMemory>
        ensures ok { IfOk result (λ c. Opens self.old c self.new) }
        ensures err { IfErr result (λ _. self.new ≡ self.old) }
    {
        let client = self.opened;
        if client == u64::MAX {
            return Err(NoMemory);
        }
        self.entries.push(Entry::open(client))?;
        self.opened = client + 1;
        Ok(client)
    }

    /// Adds an entry that opens nobody.
    pub fn add(&mut self, entry: Entry) -> Result<(), NoMemory>
        requires { entry.opens ≡ false }
        ensures ok { IfOk result (λ _. Adds self.old entry self.new) }
        ensures err { IfErr result (λ _. self.new ≡ self.old) }
    {
        self.entries.push(entry)?;
        Ok(())
    }
}
