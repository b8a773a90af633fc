//! Ports of one bit.
ghost use Rattle.std.specs.Prelude.{◌≡◌, ◌≤◌};
ghost use Rattle.circuit.specs.Next.{has_edge, is_active};
ghost use Rattle.circuit.specs.Signal.{sig_width};
ghost use Rattle.signal_words.specs.Values.{AreInside, digits_in};

use circuit::Piece;
use signal_words::sig_word;
use sim_base::Values;

/// Whether a port is active.
pub fn is_active(high: bool, port: &[Piece], nets: &Values) -> bool
    requires inside { AreInside nets.now port.now }
    requires small { sig_width port.now ≤ 64 }
    ensures { result ≡ is_active high (digits_in nets.now) port.now }
{
    sig_word(port, nets) == u64::from(high)
}

/// Whether a clock has its edge between two rounds.
pub fn has_edge(rising: bool, before: &Values, now: &Values, clk: &[Piece]) -> bool
    requires before { AreInside before.now clk.now }
    requires now { AreInside now.now clk.now }
    requires small { sig_width clk.now ≤ 64 }
    ensures { result ≡ has_edge rising (digits_in before.now) (digits_in now.now) clk.now }
{
    !is_active(rising, clk, before) && is_active(rising, clk, now)
}
