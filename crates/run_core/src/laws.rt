//! A law of the samples of a run.
ghost use Rattle.std.specs.Prelude.{◌≡◌, ◌<◌, ◌≤◌, ℕ, length};
ghost use Rattle.sim_base.specs.TimeText.{largest_time};
ghost use Rattle.circuit.specs.Rounds.{Run};
ghost use Rattle.circuit.specs.Shown.{shown};
ghost use Rattle.circuit.specs.Slots.{slot_widths};
ghost use Rattle.spool_format.specs.Records.{IsSampleOf, slot_number, slot_words};
ghost use Rattle.run_core.specs.Samples.{sample_of};
ghost use Rattle.run_core.specs.Words.{words_at};

use circuit::law_of_showing;
use sim_base::law_of_halves;

/// A sample of a run is one that a recording of the circuit takes, and the words of each slot stand for what it shows.
pub fn law_of_samples()
    ensures sample { (run : Run) (k : ℕ) → (run.row k).time ≤ largest_time → IsSampleOf (slot_widths run.circuit) (sample_of run k) }
    ensures slot { (run : Run) (k slot : ℕ) → slot < length (slot_widths run.circuit) → slot_number (slot_words (slot_widths run.circuit) (words_at run k) slot) ≡ shown run k slot }
{
    law_of_showing();
    law_of_halves();
}
