//! Diagnostics.
ghost use Rattle.std.specs.Prelude.{◌≡◌, ◌≤◌, ◌==◌, ◌&&◌, not, if◌then◌else◌};
ghost use Rattle.circuit.specs.Shown.{fails, is_triggered, some_edge};
ghost use Rattle.circuit.specs.Signal.{sig_width};
ghost use Rattle.sim_base.specs.Values.{numbers};
ghost use Rattle.signal_words.specs.Values.{AreInside, digits_in};
ghost use Rattle.state_cells.specs.Diagnostics.{fires_in, IsDiagnosticOf, IsTriggerOf, round_of};

use circuit::{Diag, Store, Trigger};
use signal_words::{SigReader, sig_word};
use sim_base::Values;

/// Whether a diagnostic fires in a round: with the values of the nets in the round before and in this
/// one. It takes no memory.
pub fn fires(diag: &Diag, before: &Store, now: &Store) -> bool
    requires { IsDiagnosticOf before.now.nets now.now.nets diag.now }
    ensures { result ≡ fires_in diag.now (round_of before.now now.now) }
{
    match &diag.trigger {
        None => fails(diag, &now.nets),
        Some(trigger) => {
            is_triggered(trigger, &before.nets, &now.nets) && fails(diag, &now.nets)
        }
    }
}

/// Whether it is enabled and does not hold.
fn fails(diag: &Diag, nets: &Values) -> bool
    requires en { AreInside nets.now diag.now.en }
    requires en_small { sig_width diag.now.en ≤ 64 }
    requires a { AreInside nets.now diag.now.a }
    requires a_small { sig_width diag.now.a ≤ 64 }
    ensures { result ≡ fails diag.now (numbers nets.now) }
{
    sig_word(diag.en.as_slice(), nets) == 1 && sig_word(diag.a.as_slice(), nets) == 0
}

/// Whether some bit of a trigger has its edge.
fn is_triggered(trigger: &Trigger, before: &Values, now: &Values) -> bool
    requires { IsTriggerOf before.now now.now trigger.now }
    ensures { result ≡ some_edge (digits_in before.now) (digits_in now.now) trigger.now.on 0 trigger.now.rising }
{
    let mut was = SigReader::new(trigger.on.as_slice(), before);
    let mut is = SigReader::new(trigger.on.as_slice(), now);
    for rising in trigger.rising.as_slice() {
        if is_edge(*rising, was.take(1), is.take(1)) {
            return true;
        }
    }
    false
}

/// Whether a bit that was one digit and is another has its edge.
fn is_edge(rising: bool, was: u64, is: u64) -> bool
    ensures { result ≡ (not (was == (if rising then 1 else 0)) && (is == (if rising then 1 else 0))) }
{
    let active = u64::from(rising);
    was != active && is == active
}
