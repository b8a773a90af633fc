//! How many samples are recorded next. A sample hits where a diagnostic of the kinds that are asked for fires at it.
ghost use Rattle.std.specs.Prelude.{◌≡◌, ◌≤◌};
ghost use Rattle.circuit.specs.Rounds.{run_length};
ghost use Rattle.solo_session.specs.Hits.{IsUpToHit};

use hall_core::Followed;
use sim_base::Kinds;

/// A record to come: so many samples, and whether the last one hits.
#[derive(Clone, Copy, Debug, PartialEq, Eq)]
pub struct Batch {
    pub samples: u64,
    pub hit: bool,
}

/// Of the samples from `from` on, up to `end`, which all settle, those up to the first that hits.
pub fn batch_to<F: Followed>(samples: &mut F, from: u64, end: u64, kinds: Kinds) -> Batch
    requires order { from ≤ end }
    requires settled { end ≤ run_length (F.run samples.old) }
    ensures batch { IsUpToHit (F.run samples.old) kinds from end result.samples result.hit }
    ensures same { samples.new ≡ samples.old }
{
    let all = Batch {
        samples: end - from,
        hit: false,
    };
    if !kinds.asserts && !kinds.assumes {
        return all;
    }
    for k in from..end {
        if samples.hits(k, kinds) {
            return Batch {
                samples: k - from + 1,
                hit: true,
            };
        }
    }
    all
}
