//! What a turn must be told of its value.

/// A value with a list of entries. Each entry is the writer's, a client's or nobody's, and an entry of a client may
/// open it.
///
/// The crate that implements it says by `reading` what a value means, and when it is in order. A turn keeps the run
/// of its first value, and each value that is left has the entries of the one that was taken, then none or some more.
pub trait Kept: Drop {
    ghost use Rattle.std.specs.Prelude.{◌≡◌, ◌≤◌, ℕ, length};
    ghost use Rattle.stage_turn.specs.Kept.{Reading, count_of, openings};

    /// What all values of one turn have in common.
    type Run;

    /// What a value is a list of.
    type Entry;

    ghost reading: { Reading Self Self.Run Self.Entry };

    /// The number of entries.
    fn length(&self) -> u64
        ensures { result ≡ length (reading.entries self.now) };

    // A value in order opens no client twice.
    ghost opens_once: { (x : Self) → reading.in_order x → (c : ℕ) → count_of c (openings reading (reading.entries x)) ≤ 1 };
}
