//! The session of the one client.
ghost use Rattle.std.specs.Prelude.{◌≡◌, ◌≢◌, ℕ, ◌+◌, ◌-◌, ◌<◌, ◌≤◌, List, [], ◌∷◌, ◌++◌, length, true, false, Err, Ok, IfOk, OnOk, ◌&&◌, ◌||◌, if◌then◌else◌};
ghost use Rattle.circuit.specs.Rounds.{run_length};
ghost use Rattle.hall_core.specs.Batches.{may_stop, record_of};
ghost use Rattle.hall_core.specs.Facts.{facts_of};
ghost use Rattle.hall_core.specs.Hall.{entries as entries_of};
ghost use Rattle.hall_core.specs.Laws.{is_recording};
ghost use Rattle.hall_core.specs.Legal.{allowed, may_act};
ghost use Rattle.hall_core.specs.Moments.{moment_of};
ghost use Rattle.hall_core.specs.Replay.{after, reaches, replay};
ghost use Rattle.hall_core.specs.declared.entry.Entry.TheVariants as entries;
ghost use Rattle.proto_packets.specs.Asked.{asked};
ghost use Rattle.proto_packets.specs.declared.fault.PacketFault.TheVariants as faults;
ghost use Rattle.proto_replies.specs.Data.{answer_data, packet_text};
ghost use Rattle.solo_session.specs.Pace as paces;
ghost use Rattle.session_core.specs.Refusals as refusals;
ghost use Rattle.session_core.specs.Replies as replies;
ghost use Rattle.session_core.specs.Said.{last_words};
ghost use Rattle.solo_session.specs.Session.{HasSaid, HasServed, IsRunning, IsServedOf, IsServing, packet_entry, conversation};
ghost use Rattle.session_core.specs.Replies.{events};

use crate::asked::is_want_of_memory;
use crate::batch::{Batch, batch_to};
use frame_zero::{Frame, Framer};
use hall_core::{Act, Entry, Followed, Goal, Hall, History, Why};
use proto_packets::{PacketFault, Request, read_packet};
use proto_replies::{Answer, Cause, ErrorKind, RunState, reply};
use session_core::Client;
use sim_base::{NoMemory, Time};
use std::alloc::Global;
use std::marker::Model;

/// A batch records at most so many samples.
const BATCH: u64 = 256;

/// The one client has this number.
const CLIENT: u64 = 0;

/// The history of a run with one client. What is to be sent is put behind a text, in order.
#[derive(Drop)]
pub struct Session<F: Followed> {
    samples: F,
    hall: Hall,
    client: Client,
    unsettled: bool,
}

impl<F: Followed> Model for Session<F> {
    ghost use Rattle.std.specs.Prelude.{◌≡◌};
    ghost use Rattle.hall_core.specs.Replay.{replay};
    ghost use Rattle.solo_session.specs.Session.{Over};

    ghost Value = { Over F };

    ghost view = { λ s. record { samples = s.samples; history = s.hall.history; client = s.client } };

    ghost invariant = { λ s. (s.hall.count ≡ (F.run s.samples).count) × (s.unsettled ≡ (replay s.hall.history).unsettled) };
}

impl<F: Followed> Session<F> {
    /// The session of a run before sample 0.
    pub fn new(alloc: Global, samples: F) -> Result<Session<F>, NoMemory>
        ensures { IfOk result (λ s. s ≡ record { samples = samples; history = []; client = refusals.new_client }) }
    {
        let hall = Hall::new(alloc, samples.count())?;
        Ok(Session {
            samples,
            hall,
            client: Client::new(),
            unsettled: false,
        })
    }

    /// Adds an entry that may come next.
    fn enter(&mut self, entry: Entry) -> Result<(), NoMemory>
        requires { allowed (F.run self.old.samples).count (replay self.old.history) entry ≡ true }
        ensures { OnOk result (self.new ≡ record self.old { history = self.old.history ++ entry ∷ [] }) }
    {
        self.hall.step(entry)?;
        if entry == Entry::Unsettled {
            self.unsettled = true;
        }
        Ok(())
    }

    /// Takes sample 0 and then the client; where that sample does not settle, nobody is served. Answers
    /// whether the client is.
    pub fn open(&mut self) -> Result<bool, NoMemory>
        requires { self.old.history ≡ [] }
        ensures opened { result ≡ Ok true → self.old.client ≡ refusals.new_client → HasServed [] (conversation F.run self.new) [] }
        ensures served { result ≡ Ok true → (1 ≤ run_length (F.run self.old.samples)) × (self.new ≡ record self.old { history = paces.opening }) }
        ensures unsettled { result ≡ Ok false → (run_length (F.run self.old.samples) ≡ 0) × (self.new ≡ record self.old { history = entries.Unsettled ∷ entries.End ∷ [] }) }
    {
        let first = self.samples.count().min(1);
        let settles = self.samples.reach(first) == 1;
        if settles {
            self.enter(Entry::Record(1, false))?;
            self.enter(Entry::Open(CLIENT))?;
        } else {
            self.enter(Entry::Unsettled)?;
            self.enter(Entry::End)?;
        }
        Ok(settles)
    }

    /// The latest sample's time.
    fn latest(&self) -> Time
        requires { IsServing (F.run self.now.samples) (replay self.now.history) }
        ensures { result ≡ replies.time_of (F.run self.now.samples) ((replay self.now.history).n - 1) }
    {
        self.samples.time(self.hall.n() - 1)
    }

    fn is_finished(&self) -> bool
        ensures { result ≡ replies.is_finished (F.run self.now.samples) (moment_of (replay self.now.history)) }
    {
        self.hall.n() == self.samples.count() || self.unsettled
    }

    fn status(&self) -> Answer
        requires { IsServing (F.run self.now.samples) (replay self.now.history) }
        ensures { result ≡ replies.status (F.run self.now.samples) (moment_of (replay self.now.history)) }
    {
        let running = matches!(self.hall.goal(), Goal::To(_, _));
        let state = match running {
            true => RunState::Running,
            false if self.is_finished() => RunState::Finished,
            false => RunState::Paused,
        };
        Answer::Status {
            latest: self.latest(),
            state,
            next: self.next_time(state),
        }
    }

    fn next_time(&self, state: RunState) -> Option<Time>
        requires serving { IsServing (F.run self.now.samples) (replay self.now.history) }
        requires state { state ≡ replies.state_of (F.run self.now.samples) (moment_of (replay self.now.history)) }
        ensures { result ≡ replies.next_time (F.run self.now.samples) (replay self.now.history).n state }
    {
        match state {
            RunState::Finished => None,
            _ => Some(self.samples.time(self.hall.n())),
        }
    }

    /// How many samples a run goes to.
    fn goal_of(&self, until: Option<Time>) -> u64
        ensures goal { result ≡ replies.goal_of (F.run self.now.samples) until }
        ensures most { result ≤ (F.run self.now.samples).count }
    {
        match until {
            Some(time) => self.samples.count_until(time),
            None => self.samples.count(),
        }
    }

    /// What a packet does.
    fn act_of(&self, read: &Result<Request, PacketFault>, error: Option<ErrorKind>) -> Act
        ensures act { result ≡ replies.act_unless error (replies.act_asked (F.run self.now.samples) read.now) }
        ensures may { may_act (F.run self.now.samples).count result ≡ true }
    {
        match (error, read) {
            (None, Ok(Request::RunSimulation { until, kinds })) => {
                Act::Run(self.goal_of(*until), *kinds)
            }
            _ => Act::Look,
        }
    }

    fn answer_to(&self, read: &Result<Request, PacketFault>, error: Option<ErrorKind>) -> Answer
        requires serving { IsServing (F.run self.now.samples) (replay self.now.history) }
        ensures { answer_data result ≡ replies.answer_unless error (replies.answer_to (F.run self.now.samples) (moment_of (replay self.now.history)) read.now) }
    {
        match (error, read) {
            (Some(kind), _) => Answer::Error(kind),
            (None, Ok(Request::Greeting { .. })) => Answer::Greeting,
            (None, Ok(Request::Status)) => self.status(),
            (None, Ok(Request::RunSimulation { .. })) => Answer::RunSimulation,
            (None, Ok(_)) => Answer::Error(ErrorKind::InvalidCommand),
            (None, Err(_)) => Answer::Error(ErrorKind::InvalidJson),
        }
    }

    /// Puts the event of an entry behind the text, which was entered last.
    fn push_event(&self, alloc: Global, entry: Entry, text: &mut Vec<u8>) -> Result<(), NoMemory>
        requires { IsServing (F.run self.now.samples) (replay self.now.history) }
        ensures { OnOk result (text.new.items ≡ text.old.items ++ packet_text (replies.event_of (F.run self.now.samples) (moment_of (replay self.now.history)) entry)) }
    {
        let time = self.latest();
        let event = if self.is_finished() {
            Answer::Finished { time }
        } else {
            let cause = cause_of(entry);
            Answer::Paused { cause, time }
        };
        push_answer(alloc, text, &event)
    }

    /// Adds an entry, and its event for a client that was greeted.
    fn enter_and_tell(
        &mut self,
        alloc: Global,
        entry: Entry,
        text: &mut Vec<u8>,
    ) -> Result<(), NoMemory>
        requires allowed { allowed (F.run self.old.samples).count (replay self.old.history) entry ≡ true }
        requires running { IsRunning (replay self.old.history).goal }
        requires recording { is_recording entry ≡ true }
        requires serving { IsServing (F.run self.old.samples) (after (replay self.old.history) entry) }
        ensures session { OnOk result (self.new ≡ record self.old { history = self.old.history ++ entry ∷ [] }) }
        ensures text { OnOk result (text.new.items ≡ text.old.items ++ replies.event (F.run self.old.samples) self.old.client.greeted (replay self.old.history) entry) }
    {
        self.enter(entry)?;
        if self.client.is_greeted() && self.hall.goal() == Goal::Hold {
            self.push_event(alloc, entry, text)?;
        }
        Ok(())
    }

    /// The batch that is recorded next: as many samples as the goal lets, up to the first that hits.
    fn next_batch(&mut self) -> Batch
        requires { IsServing (F.run self.old.samples) (replay self.old.history) }
        ensures most { result.samples ≡ paces.most_next (facts_of (F.run self.old.samples)) (replay self.old.history) }
        ensures entry { 0 < result.samples → record_of (facts_of (F.run self.old.samples)) (replay self.old.history) result.samples ≡ entries.Record result.samples result.hit }
        ensures same { self.new ≡ self.old }
    {
        let n = self.hall.n();
        match self.hall.goal() {
            Goal::To(goal, kinds) => {
                let end = self.samples.reach(n + (goal - n).min(BATCH));
                batch_to(&mut self.samples, n, end, kinds)
            }
            _ => Batch {
                samples: 0,
                hit: false,
            },
        }
    }

    /// Enters as many samples as the goal lets, at most a batch.
    fn record(&mut self, alloc: Global, text: &mut Vec<u8>) -> Result<(), NoMemory>
        requires serving { IsServing (F.run self.old.samples) (replay self.old.history) }
        ensures session { OnOk result (self.new ≡ record self.old { history = paces.recorded (facts_of (F.run self.old.samples)) self.old.history }) }
        ensures serving { OnOk result (IsServing (F.run self.new.samples) (replay self.new.history)) }
        ensures text { OnOk result (text.new.items ≡ text.old.items ++ events (F.run self.old.samples) self.old.client.greeted (replay self.old.history)
            (paces.record_entries (facts_of (F.run self.old.samples)) (replay self.old.history) (paces.most_next (facts_of (F.run self.old.samples)) (replay self.old.history)))) }
    {
        let batch = self.next_batch();
        if batch.samples > 0 {
            self.enter_and_tell(alloc, Entry::Record(batch.samples, batch.hit), text)?;
        }
        Ok(())
    }

    /// Whether the next sample is asked for and does not settle.
    fn may_stop(&mut self) -> bool
        requires { IsServing (F.run self.old.samples) (replay self.old.history) }
        ensures stop { result ≡ may_stop (facts_of (F.run self.old.samples)) (replay self.old.history) }
        ensures same { self.new ≡ self.old }
    {
        let n = self.hall.n();
        match self.hall.goal() {
            Goal::To(_, _) => self.samples.reach(n + 1) == n,
            _ => false,
        }
    }

    /// Enters that the next sample does not settle, where it is asked for and does not.
    fn stop(&mut self, alloc: Global, text: &mut Vec<u8>) -> Result<(), NoMemory>
        requires serving { IsServing (F.run self.old.samples) (replay self.old.history) }
        ensures session { OnOk result (self.new ≡ record self.old { history = paces.stopped (facts_of (F.run self.old.samples)) self.old.history }) }
        ensures serving { OnOk result (IsServing (F.run self.new.samples) (replay self.new.history)) }
        ensures text { OnOk result (text.new.items ≡ text.old.items ++ events (F.run self.old.samples) self.old.client.greeted (replay self.old.history)
            (paces.stop_entries (facts_of (F.run self.old.samples)) (replay self.old.history))) }
    {
        if self.may_stop() {
            self.enter_and_tell(alloc, Entry::Unsettled, text)?;
        }
        Ok(())
    }

    /// Whether a packet that does so asks for no more samples than there are.
    fn reaches(&self, act: Act) -> bool
        ensures { result ≡ reaches (replay self.now.history) (entries.Packet 0 act) }
    {
        match act {
            Act::Run(goal, _) => goal <= self.hall.n() || self.unsettled,
            _ => false,
        }
    }

    /// Puts the event of the entry that was entered last behind the text, for a client that was greeted, where the
    /// entry reached a goal.
    fn tell(
        &self,
        alloc: Global,
        reached: bool,
        entry: Entry,
        text: &mut Vec<u8>,
    ) -> Result<(), NoMemory>
        requires { IsServing (F.run self.now.samples) (replay self.now.history) }
        ensures { OnOk result (text.new.items ≡ text.old.items ++ (if reached && self.now.client.greeted then packet_text (replies.event_of (F.run self.now.samples) (moment_of (replay self.now.history)) entry) else [])) }
    {
        if reached && self.client.is_greeted() {
            self.push_event(alloc, entry, text)?;
        }
        Ok(())
    }

    /// Enters a packet that was read, and puts the reply behind the text.
    fn answer(
        &mut self,
        alloc: Global,
        read: &Result<Request, PacketFault>,
        act: Act,
        text: &mut Vec<u8>,
    ) -> Result<(), NoMemory>
        requires serving { IsServing (F.run self.old.samples) (replay self.old.history) }
        requires memory { read.now ≢ Err faults.NoMemory }
        requires act { act ≡ replies.act_in (F.run self.old.samples) self.old.client read.now }
        requires may { may_act (F.run self.old.samples).count act ≡ true }
        ensures session { OnOk result (self.new ≡ record self.old { history = self.old.history ++ entries.Packet 0 act ∷ []; client = refusals.client_after self.old.client read.now }) }
        ensures serving { OnOk result (IsServing (F.run self.new.samples) (replay self.new.history)) }
        ensures text { OnOk result (text.new.items ≡ text.old.items ++ packet_text (replies.answer_in (F.run self.old.samples) self.old.client (moment_of (after (replay self.old.history) (entries.Packet 0 act))) read.now)) }
    {
        let error = self.client.refusal(read);
        self.enter(Entry::Packet(CLIENT, act))?;
        let answer = self.answer_to(read, error);
        push_answer(alloc, text, &answer)?;
        self.client.take_in(read);
        Ok(())
    }

    /// Takes a packet in that was read, and puts the reply and the event behind the text.
    fn take_in(
        &mut self,
        alloc: Global,
        read: &Result<Request, PacketFault>,
        text: &mut Vec<u8>,
    ) -> Result<(), NoMemory>
        requires serving { IsServing (F.run self.old.samples) (replay self.old.history) }
        requires memory { read.now ≢ Err faults.NoMemory }
        ensures session { OnOk result (self.new ≡ record self.old { history = self.old.history ++ packet_entry (conversation F.run self.old) read.now ∷ []; client = refusals.client_after self.old.client read.now }) }
        ensures serving { OnOk result (IsServing (F.run self.new.samples) (replay self.new.history)) }
        ensures text { OnOk result (text.new.items ≡ text.old.items ++ (packet_text (replies.answer_in (F.run self.old.samples) self.old.client (moment_of (after (replay self.old.history) (packet_entry (conversation F.run self.old) read.now))) read.now)
            ++ replies.event (F.run self.old.samples) (refusals.client_after self.old.client read.now).greeted (replay self.old.history) (packet_entry (conversation F.run self.old) read.now))) }
    {
        let act = self.act_of(read, self.client.refusal(read));
        let reached = self.reaches(act);
        self.answer(alloc, read, act, text)?;
        self.tell(alloc, reached, Entry::Packet(CLIENT, act), text)?;
        Ok(())
    }

    /// Reads a packet and takes it in.
    fn take_packet(
        &mut self,
        alloc: Global,
        packet: &[u8],
        text: &mut Vec<u8>,
    ) -> Result<(), NoMemory>
        requires serving { IsServing (F.run self.old.samples) (replay self.old.history) }
        ensures session { OnOk result (self.new ≡ record self.old { history = self.old.history ++ packet_entry (conversation F.run self.old) (asked packet.now) ∷ []; client = refusals.client_after self.old.client (asked packet.now) }) }
        ensures text { OnOk result (text.new.items ≡ text.old.items ++ (packet_text (replies.answer_in (F.run self.old.samples) self.old.client (moment_of (after (replay self.old.history) (packet_entry (conversation F.run self.old) (asked packet.now)))) (asked packet.now))
            ++ replies.event (F.run self.old.samples) (refusals.client_after self.old.client (asked packet.now)).greeted (replay self.old.history) (packet_entry (conversation F.run self.old) (asked packet.now)))) }
        ensures serving { OnOk result (IsServing (F.run self.new.samples) (replay self.new.history)) }
    {
        let read = read_packet(alloc, packet);
        if is_want_of_memory(&read) {
            return Err(NoMemory);
        }
        self.take_in(alloc, &read, text)?;
        Ok(())
    }

    /// Takes a packet in, and then records a batch.
    fn serve_packet(
        &mut self,
        alloc: Global,
        packet: &[u8],
        text: &mut Vec<u8>,
    ) -> Result<(), NoMemory>
        requires serving { IsServing (F.run self.old.samples) (replay self.old.history) }
        ensures served { OnOk result ((packets : List (List ℕ)) (sent : List ℕ) → HasServed packets (conversation F.run self.old) (sent ++ text.old.items)
            → HasServed (packets ++ packet.now ∷ []) (conversation F.run self.new) (sent ++ text.new.items)) }
        ensures serving { OnOk result (IsServing (F.run self.new.samples) (replay self.new.history)) }
        ensures run { OnOk result (self.new.samples ≡ self.old.samples) }
    {
        self.take_packet(alloc, packet, text)?;
        self.record(alloc, text)?;
        self.stop(alloc, text)?;
        Ok(())
    }

    /// Serves the packets that were fed, and answers whether a part behind them is too long to be one.
    pub fn serve_packets(
        &mut self,
        alloc: Global,
        framer: &mut Framer,
        text: &mut Vec<u8>,
    ) -> Result<bool, NoMemory>
        requires serving { IsServing (F.run self.old.samples) (replay self.old.history) }
        ensures served { IfOk result (λ too_long. IsServedOf framer.old framer.new too_long (conversation F.run self.old) (conversation F.run self.new) text.old.items text.new.items) }
        ensures samples { OnOk result (self.new.samples ≡ self.old.samples) }
    {
        loop {
            match framer.take() {
                Frame::Whole(packet) => self.serve_packet(alloc, packet, text)?,
                Frame::TooLong => return Ok(true),
                Frame::NotYet => return Ok(false),
            }
        }
    }

    /// Records batches until no goal is left.
    pub fn run_out(&mut self, alloc: Global, text: &mut Vec<u8>) -> Result<(), NoMemory>
        requires serving { IsServing (F.run self.old.samples) (replay self.old.history) }
        ensures session { OnOk result (self.new ≡ record self.old { history = paces.batches (facts_of (F.run self.old.samples)) (F.run self.old.samples).count self.old.history }) }
        ensures serving { OnOk result (IsServing (F.run self.new.samples) (replay self.new.history)) }
        ensures served { OnOk result ((packets : List (List ℕ)) (sent : List ℕ) → HasSaid packets (conversation F.run self.old) (sent ++ text.old.items) → HasSaid packets (conversation F.run self.new) (sent ++ text.new.items)) }
    {
        for _batch in 0..self.samples.count() {
            self.record(alloc, text)?;
            self.stop(alloc, text)?;
        }
        Ok(())
    }

    /// Lets the client go, and ends the history.
    pub fn close(&mut self, alloc: Global, why: Why, text: &mut Vec<u8>) -> Result<(), NoMemory>
        requires serving { IsServing (F.run self.old.samples) (replay self.old.history) }
        ensures session { OnOk result (self.new ≡ record self.old { history = self.old.history ++ entries.Close 0 why ∷ entries.End ∷ [] }) }
        ensures text { OnOk result (text.new.items ≡ text.old.items ++ last_words why) }
    {
        self.enter(Entry::Close(CLIENT, why))?;
        self.enter(Entry::End)?;
        if why == Why::TooLong {
            push_answer(alloc, text, &Answer::Error(ErrorKind::PacketTooLong))?;
        }
        Ok(())
    }

    /// Whether a sample did not settle.
    pub fn is_unsettled(&self) -> bool
        ensures { result ≡ (replay self.now.history).unsettled }
    {
        self.unsettled
    }

    /// The history.
    pub fn history(&self) -> &History
        ensures { entries_of result.now ≡ self.now.history }
    {
        self.hall.history()
    }
}

fn cause_of(entry: Entry) -> Cause
    ensures { result ≡ replies.cause_of entry }
{
    match entry {
        Entry::Record(_, true) => Cause::UntilDiagnostics,
        _ => Cause::UntilTime,
    }
}

/// Puts the packet of an answer behind the text.
fn push_answer(alloc: Global, text: &mut Vec<u8>, answer: &Answer) -> Result<(), NoMemory>
    ensures { OnOk result (text.new.items ≡ text.old.items ++ packet_text (answer_data answer.now)) }
{
    text.extend_from_slice(&reply(alloc, answer)?)?;
    Ok(())
}
