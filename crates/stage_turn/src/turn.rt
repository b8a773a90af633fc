//! The turn and its calls.

ghost use Rattle.std.specs.Prelude.{◌≡◌, ◌≤◌, ◌++◌, [], List, length, IfOk, IfSome, IfNone};
ghost use Rattle.stage_turn.specs.Kept.{openings};
ghost use Rattle.stage_turn.specs.Known.{IsWriter, IsClerk, HasWholeShare, IsInTurn, IsResting, OneBeginsOther, Follows};
ghost use Rattle.stage_turn.specs.Known.{first_writer, first_clerk, appended, holding, resting, told, giver, newcomer, joined};
ghost use Rattle.stage_turn.specs.Turn.{Finds, Leaves, Closes};
ghost use Rattle.stage_turn.specs.Steps.{writer_of, clerk_of};

use crate::kept::Kept;
use crate::known::Known;
use crate::rule::{Begin, CountStep, Give, Law, LearnStep, LeaveStep, Merge, StoreStep, TakeStep};
use crate::seat::TurnSeat;
use atomic_table::{Refused, Table};
use sim_base::NoMemory;
use std::alloc::Global;
use std::marker::Model;
use std::snapshot::Snapshot;
use std::sync::Wait;
use std::thread;

/// One value for many threads. All calls but `new` and `close` go through a `&`, each with a seat of this turn, and
/// only `take` waits. Clauses see which turn it is.
#[derive(Drop)]
pub struct Turn<T: Kept> {
    table: Table<Option<T>, Known<T::Run, T::Entry>, Snapshot<T>, Law<T>, Global>,
}

impl<T: Kept> Model for Turn<T> {
    ghost use Rattle.std.specs.Prelude.{◌≡◌};
    ghost use Rattle.atomic_table.specs.Seated.{TableId, table_id_coded};

    ghost Value = { TableId };

    ghost coded = { table_id_coded };

    ghost view = { λ t. t.table.shared.table_id };

    ghost invariant = { λ t. (t.table.shared.table_id.words ≡ 2) × (t.table.shared.table_id.slots ≡ 1) };
}

impl<T: Kept> Turn<T> {
    /// A turn that nobody holds, the writer's seat, and the seat of a clerk with the whole share.
    ///
    /// The value is dropped where there is no memory.
    pub fn new(alloc: Global, first: T) -> Result<(Turn<T>, TurnSeat<T>, TurnSeat<T>), NoMemory>
        requires order { T.reading.in_order first }
        requires opens_nobody { openings T.reading (T.reading.entries first) ≡ [] }
        ensures seats { IfOk result (λ r. (r.1.turn ≡ r.0) × (r.2.turn ≡ r.0)) }
        ensures writer { IfOk result (λ r. r.1.knows ≡ first_writer T.reading first) }
        ensures clerk { IfOk result (λ r. r.2.knows ≡ first_clerk T.reading first) }
    {
        let known = Snapshot::of(&first);
        let count = first.length();
        let mut slots = Vec::with_capacity(alloc, 1)?;
        slots.push_reserved(Some(first));
        match Table::new(alloc, &[0, count], slots, &known) {
            Ok((table, seat)) => {
                let turn = Turn { table };
                let mut writer = TurnSeat { seat };
                let clerk = turn.begin(&mut writer);
                Ok((turn, writer, clerk))
            }
            Err(Refused { slots: _ }) => Err(NoMemory),
        }
    }

    // The pen stays with this seat, and the share goes to a new one.
    fn begin(&self, seat: &mut TurnSeat<T>) -> TurnSeat<T>
        requires seat { seat.old.turn ≡ self.now }
        requires resting { IsResting seat.old.knows }
        requires both { IsWriter seat.old.knows × IsClerk seat.old.knows }
        ensures seat { (seat.new.turn ≡ self.now) × (seat.new.knows ≡ writer_of seat.old.knows) }
        ensures clerk { (result.turn ≡ self.now) × (result.knows ≡ clerk_of seat.old.knows) }
    {
        TurnSeat {
            seat: self.table.shared.split_seat::<Begin>(&mut seat.seat),
        }
    }

    // The value, or `None` where another seat has it.
    fn try_take(&self, seat: &mut TurnSeat<T>) -> Option<T>
        requires seat { seat.old.turn ≡ self.now }
        requires resting { IsResting seat.old.knows }
        ensures seat { seat.new.turn ≡ self.now }
        ensures held { IfNone result (seat.new ≡ seat.old) }
        ensures knows { IfSome result (λ value.
            seat.new.knows ≡ holding (T.reading.entries value) seat.old.knows) }
        ensures finds { IfSome result (λ value. Finds T.reading seat.old.knows value) }
    {
        let found = self
            .table
            .shared
            .compare_exchange::<TakeStep<T>>(&mut seat.seat, 0, 0, 1);
        if found != 0 {
            return None;
        }
        Some(self.table.shared.exchange(&mut seat.seat, 0, None).unwrap())
    }

    /// Takes the value, as the seat that had it last left it. Waits while another seat has it. Which of the seats that
    /// wait gets it next is not said.
    pub fn take<R: Wait>(&self, rt: &R, seat: &mut TurnSeat<T>) -> T
        requires seat { seat.old.turn ≡ self.now }
        requires resting { IsResting seat.old.knows }
        ensures seat { seat.new.turn ≡ self.now }
        ensures knows { seat.new.knows ≡ holding (T.reading.entries result) seat.old.knows }
        ensures finds { Finds T.reading seat.old.knows result }
    {
        for _ in rt.forever() {
            if let Some(value) = self.try_take(seat) {
                return value;
            }
            thread::yield_now();
        }
        unreachable!()
    }

    /// Leaves the value to the next seat, with none or some entries more. Each of these is one that this seat may add:
    /// the writer's with the pen, a client's where it opened that client before or opens it here, and nobody's with
    /// the whole share. Only a clerk opens clients.
    pub fn leave(&self, seat: &mut TurnSeat<T>, value: T)
        requires seat { seat.old.turn ≡ self.now }
        requires turn { IsInTurn seat.old.knows }
        requires leaves { (more : List T.Entry) × Leaves T.reading seat.old.knows value more }
        ensures seat { seat.new.turn ≡ self.now }
        ensures rests { IsResting seat.new.knows }
        ensures pen { seat.new.knows.own.pen ≡ seat.old.knows.own.pen }
        ensures share { seat.new.knows.own.share ≡ seat.old.knows.own.share }
        ensures seen { seat.new.knows.own.seen ≡ T.reading.entries value }

        // The new entries are those behind what the seat had seen.
        ensures knows { (more : List T.Entry) →
            T.reading.entries value ≡ seat.old.knows.own.seen ++ more →
            seat.new.knows ≡ resting (appended T.reading more seat.old.knows) }
    {
        let count = value.length();
        drop(self.table.shared.exchange(&mut seat.seat, 0, Some(value)));
        self.table
            .shared
            .store::<StoreStep<T>>(&mut seat.seat, 1, count);
        self.table.shared.store::<LeaveStep>(&mut seat.seat, 0, 0);
    }

    /// A new clerk's seat. It has seen what this one has, has a share of one, and has opened nobody.
    pub fn split(&self, seat: &mut TurnSeat<T>) -> TurnSeat<T>
        requires seat { seat.old.turn ≡ self.now }
        requires resting { IsResting seat.old.knows }
        requires share { 2 ≤ seat.old.knows.own.share }
        ensures seat { (seat.new.turn ≡ self.now) × (seat.new.knows ≡ giver seat.old.knows) }
        ensures clerk { (result.turn ≡ self.now) × (result.knows ≡ newcomer seat.old.knows) }
    {
        TurnSeat {
            seat: self.table.shared.split_seat::<Give>(&mut seat.seat),
        }
    }

    /// One clerk's seat of two, which has seen the longer history of the two, and has both shares and the clients of
    /// both.
    pub fn join(&self, into: &mut TurnSeat<T>, from: TurnSeat<T>)
        requires seats { (into.old.turn ≡ self.now) × (from.turn ≡ self.now) }
        requires resting { IsResting into.old.knows × IsResting from.knows }
        requires clerks { IsClerk into.old.knows × IsClerk from.knows }
        ensures seat { into.new.turn ≡ self.now }
        ensures knows { into.new.knows ≡ joined into.old.knows from.knows }
        ensures one_history { OneBeginsOther into.old.knows.own.seen from.knows.own.seen }

        // Behind what one of the two had seen there is no entry that was this one's own.
        ensures into_follows { Follows T.reading into.old.knows.own into.new.knows.own.seen }
        ensures from_follows { Follows T.reading from.knows.own into.new.knows.own.seen }
    {
        let TurnSeat { seat } = from;
        self.table.shared.join_seat::<Merge>(&mut into.seat, seat);
        self.table.shared.load::<LearnStep<T>>(&mut into.seat, 0);
    }

    /// How many entries the value had when it was left last: no fewer than this seat has seen, and no fewer than it
    /// was told before. Waits for nobody, also while another seat has the value.
    pub fn load_count(&self, seat: &mut TurnSeat<T>) -> u64
        requires seat { seat.old.turn ≡ self.now }
        ensures seat { (seat.new.turn ≡ self.now) × (seat.new.knows ≡ told result seat.old.knows) }
        ensures seen { length seat.old.knows.own.seen ≤ result }
        ensures grows { seat.old.knows.heard ≤ result }
    {
        self.table.shared.load::<CountStep>(&mut seat.seat, 1)
    }

    /// The value as it was left last. The clerk is the only one, so beside the writer's entries there are only its own
    /// and those of the clerks that were joined into it.
    pub fn close(self, writer: TurnSeat<T>, clerk: TurnSeat<T>) -> T
        requires seats { (writer.turn ≡ self) × (clerk.turn ≡ self) }
        requires resting { IsResting writer.knows × IsResting clerk.knows }
        requires roles { IsWriter writer.knows × HasWholeShare clerk.knows }
        ensures { Closes T.reading writer.knows clerk.knows result }
    {
        let Turn { table } = self;
        let TurnSeat { seat: writer } = writer;
        let TurnSeat { seat: mut clerk } = clerk;
        table.shared.join_seat::<Merge>(&mut clerk, writer);
        let mut closed = table.close_with(clerk);
        let value = closed.take(0).unwrap();
        closed.free();
        value
    }
}
