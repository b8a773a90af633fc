//! The rule of the table that lies below a turn, and the steps that keep it.

use crate::kept::Kept;
use crate::known::Known;
use atomic_table::{Join, Play, Split, TableRule};
use std::marker::PhantomData;
use std::snapshot::Snapshot;

pub struct Law<T> {
    of: PhantomData<T>,
}

impl<T: Kept> TableRule<Option<T>, Known<T::Run, T::Entry>, Snapshot<T>> for Law<T> {
    ghost use Rattle.stage_turn.specs.Rule.{TurnRule};
    ghost use Rattle.stage_turn.specs.Steps.{opener};

    ghost holds = { λ _. TurnRule T.reading };

    ghost first = { λ k. opener T.reading k.value };
}

/// The turn is taken, unless another seat holds it.
pub struct TakeStep<T> {
    of: PhantomData<T>,
}

impl<T: Kept> Play<Option<T>, Known<T::Run, T::Entry>> for TakeStep<T> {
    ghost use Rattle.stage_turn.specs.Steps.{Took};

    ghost then = { Took T.reading };
}

/// The number of entries is stored.
pub struct StoreStep<T> {
    of: PhantomData<T>,
}

impl<T: Kept> Play<Option<T>, Known<T::Run, T::Entry>> for StoreStep<T> {
    ghost use Rattle.stage_turn.specs.Steps.{Stored};

    ghost then = { Stored T.reading };
}

/// The turn is left.
pub struct LeaveStep;

impl<T, R, E> Play<Option<T>, Known<R, E>> for LeaveStep {
    ghost use Rattle.stage_turn.specs.Steps.{Left};

    ghost then = { Left };
}

/// The number of entries is loaded.
pub struct CountStep;

impl<T, R, E> Play<Option<T>, Known<R, E>> for CountStep {
    ghost use Rattle.stage_turn.specs.Steps.{Counted};

    ghost then = { Counted };
}

/// The note of a join is read.
pub struct LearnStep<T> {
    of: PhantomData<T>,
}

impl<T: Kept> Play<Option<T>, Known<T::Run, T::Entry>> for LearnStep<T> {
    ghost use Rattle.stage_turn.specs.Steps.{Learned};

    ghost then = { Learned T.reading };
}

/// The first seat is cut into the writer's and the first clerk's.
pub struct Begin;

impl<R, E> Split<Known<R, E>> for Begin {
    ghost use Rattle.stage_turn.specs.Steps.{writer_of, clerk_of};

    ghost left = { writer_of };

    ghost right = { clerk_of };
}

/// A clerk gives a share of one to a new clerk.
pub struct Give;

impl<R, E> Split<Known<R, E>> for Give {
    ghost use Rattle.stage_turn.specs.Known.{giver, newcomer};

    ghost left = { giver };

    ghost right = { newcomer };
}

/// Two seats are made one.
pub struct Merge;

impl<R, E> Join<Known<R, E>> for Merge {
    ghost use Rattle.stage_turn.specs.Steps.{joining, spent};

    ghost both = { joining };

    ghost spent = { spent };
}
