//! Whether a cell reads something else than before.
ghost use Rattle.std.specs.Prelude.{◌≡◌};
ghost use Rattle.signal_words.specs.Values.{digits_in};
ghost use Rattle.cell_changes.specs.Changes.{IsReadIn, has_changed};

use crate::signal::is_same;
use circuit::Cell;
use sim_base::Values;

/// Whether a bit that a cell reads differs between two lists of the values of nets. It takes no step and no memory.
pub fn has_changed(cell: &Cell, before: &Values, now: &Values) -> bool
    requires before { IsReadIn before.now cell.now }
    requires now { IsReadIn now.now cell.now }
    ensures { result ≡ has_changed (digits_in before.now) (digits_in now.now) cell.now }
{
    !(is_same(cell.a.as_slice(), before, now)
        && is_same(cell.b.as_slice(), before, now)
        && is_same(cell.s.as_slice(), before, now))
}
