//! Of which kinds the diagnostics are that fired at a sample.
ghost use Rattle.std.specs.Prelude.{◌≡◌, ◌<◌, ◌^◌, ◌&&◌, ◌||◌, ℕ, length};
ghost use Rattle.circuit.specs.Rounds.{Run};
ghost use Rattle.run_core.specs.Cursor.{left_by};
ghost use Rattle.run_followed.specs.Fired.{kinds_at, none, with_fired};

use circuit::{Circuit, DiagKind};
use eval_commit::Machine;
use sim_base::Kinds;

/// No kinds.
pub(crate) fn no_kinds() -> Kinds
    ensures { result ≡ none }
{
    Kinds {
        asserts: false,
        assumes: false,
    }
}

/// Whether some kind is among both.
pub(crate) fn meet(kinds: Kinds, others: Kinds) -> bool
    ensures { result ≡ ((kinds.asserts && others.asserts) || (kinds.assumes && others.assumes)) }
{
    kinds.asserts && others.asserts || kinds.assumes && others.assumes
}

/// These kinds, and that of a diagnostic where it fired.
fn with_fired(kinds: Kinds, kind: DiagKind, fired: bool) -> Kinds
    ensures { result ≡ with_fired kinds kind fired }
{
    match kind {
        DiagKind::Assert => Kinds {
            asserts: kinds.asserts || fired,
            assumes: kinds.assumes,
        },
        DiagKind::Assume => Kinds {
            asserts: kinds.asserts,
            assumes: kinds.assumes || fired,
        },
    }
}

/// The kinds of the diagnostics that fired at the last sample of a machine.
pub(crate) fn fired_kinds(machine: &Machine, circuit: &Circuit) -> Kinds
    requires circuit { machine.now.circuit ≡ circuit.now }
    requires few { length circuit.now.diags < 2 ^ 32 }
    ensures { (run : Run) (k : ℕ) → machine.now ≡ left_by run k → result ≡ kinds_at run k }
{
    let diags = circuit.diags.as_slice();
    let mut kinds = no_kinds();
    for d in 0..diags.len() {
        kinds = with_fired(kinds, diags[d].kind, machine.fired(d as u32));
    }
    kinds
}
