//! A seat of a turn.

use crate::kept::Kept;
use crate::known::Known;
use atomic_table::Seat;
use std::marker::Model;

/// A seat takes no memory, and moves between threads freely. Clauses see its turn and what it knows.
///
/// A turn is closed by the writer's seat and a clerk's with the whole share. So a turn of which one seat was dropped
/// is never closed, and a seat that is dropped in its turn leaves all others waiting.
#[derive(Drop)]
pub struct TurnSeat<T: Kept> {
    pub(crate) seat: Seat<Option<T>, Known<T::Run, T::Entry>>,
}

impl<T: Kept> Model for TurnSeat<T> {
    ghost use Rattle.stage_turn.specs.Seat.{Seated, Sits};

    ghost Value = { Seated T.Run T.Entry };

    ghost view = { λ s. record { turn = s.seat.table_id; knows = s.seat.me.0 } };

    ghost invariant = { λ s. Sits s.seat.me };
}
