//! Samples that are followed.
ghost use Rattle.std.specs.Prelude.{◌≡◌, ◌<◌, ◌≤◌, min};
ghost use Rattle.circuit.specs.Rounds.{Run, run_length};
ghost use Rattle.circuit.specs.Shown.{hits};
ghost use Rattle.hall_core.specs.Samples.{samples_until};

use sim_base::{Kinds, Time};

/// A circuit under its samples, which is followed from the first sample on. `run` is the two; what was followed so
/// far is kept, and no contract sees it.
pub trait Followed: Drop {
    ghost run: { Self → Run };

    /// How many samples there are, at least one.
    fn count(&self) -> u64
        ensures count { result ≡ (run self.now).count }
        ensures some { 1 ≤ result };

    /// How many of the first `want` samples settle. What is known of earlier calls is not computed again.
    fn reach(&mut self, want: u64) -> u64
        requires { want ≤ (run self.old).count }
        ensures settled { result ≡ min want (run_length (run self.old)) }
        ensures same { self.new ≡ self.old };

    /// Whether a diagnostic of one of these kinds fires at sample `k`, which settles.
    fn hits(&mut self, k: u64, kinds: Kinds) -> bool
        requires { k < run_length (run self.old) }
        ensures hits { result ≡ hits (run self.old) k kinds }
        ensures same { self.new ≡ self.old };

    /// The time of sample `k`.
    fn time(&self, k: u64) -> Time
        requires { k < (run self.now).count }
        ensures { result ≡ ((run self.now).row k).time };

    /// How many samples are at or before a time.
    fn count_until(&self, time: Time) -> u64
        ensures value { result ≡ samples_until (run self.now).row (run self.now).count time }
        ensures most { result ≤ (run self.now).count };
}
