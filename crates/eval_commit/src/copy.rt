//! Lists of values, copied in place.
ghost use Rattle.std.specs.Prelude.{◌≡◌};
ghost use Rattle.sim_base.specs.Values.{widths};

use circuit::Listing;
use sim_base::Bits;
use state_cells::put_value;

/// Copies each value to one of the same width. It takes no memory.
pub(crate) fn copy_values(from: &[Bits], into: &mut Listing<Bits>)
    requires { widths into.old ≡ widths from.now }
    ensures { into.new ≡ from.now }
{
    for (n, value) in from.iter().enumerate() {
        put_value(value, into.at(n));
    }
}
