//! Registers and latches in a round.
ghost use Rattle.std.specs.Prelude.{◌≡◌, not, map, nat_eq, true};
ghost use Rattle.std.specs.Cmp.Lexicographic.{pointwise};
ghost use Rattle.circuit.specs.Next.{next_numbers};
ghost use Rattle.circuit.specs.Valid.{is_valid};
ghost use Rattle.signal_words.specs.Stores.{IsStoreOf};
ghost use Rattle.sim_base.specs.Values.{numbers, widths};
ghost use Rattle.signal_words.specs.Values.{digits_in};

use circuit::{Circuit, Store};
use sim_base::Values;
use state_cells::{law_of_rounds, next};

/// Puts the next value of each register in the place of its present one, and tells whether one of them
/// changed. It takes no memory.
pub(crate) fn next_regs(circuit: &Circuit, before: &Store, now: &Store, regs: &mut Values) -> bool
    requires valid { is_valid circuit.now ≡ true }
    requires before { IsStoreOf circuit.now before.now }
    requires now { IsStoreOf circuit.now now.now }
    requires widths { widths regs.old ≡ map (λ r. r.width) circuit.now.regs }
    ensures widths { widths regs.new ≡ widths regs.old }
    ensures numbers { numbers regs.new ≡ next_numbers (digits_in before.now.nets) (digits_in now.now.nets) circuit.now.regs (numbers regs.old) }
    ensures changed { result ≡ not (pointwise nat_eq (numbers regs.new) (numbers regs.old)) }
{
    law_of_rounds();
    let _ = regs.len();
    let mut changed = false;
    for (n, reg) in circuit.regs.as_slice().iter().enumerate() {
        changed |= next(reg, before, now, regs, n as u32);
    }
    changed
}

/// Copies the values of the registers to a store, and leaves the rest of it. It takes no memory.
pub(crate) fn put_regs(regs: &Values, store: &mut Store)
    requires { widths store.old.regs ≡ widths regs.now }
    ensures regs { store.new.regs ≡ regs.now }
    ensures nets { store.new.nets ≡ store.old.nets }
    ensures cells { store.new.cells ≡ store.old.cells }
    ensures reads { store.new.reads ≡ store.old.reads }
{
    store.regs.copy_all(regs);
}
