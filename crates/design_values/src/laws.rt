//! Laws of values of nets that follow their drives.
ghost use Rattle.std.specs.Prelude.{◌≡◌, ℕ, List, None, Some, false, slice_get, true};
ghost use Rattle.circuit.specs.Acyclic.{IsDrivenOnce};
ghost use Rattle.circuit.specs.Below.{AreConstantsBelow};
ghost use Rattle.circuit.specs.Signal.{AreBits, sig_number, sig_width};
ghost use Rattle.circuit.specs.Valuation.{IsValuation};
ghost use Rattle.circuit.specs.declared.netlist.Piece.{Piece};
ghost use Rattle.rtlil_signals.specs.Drives.{connected};
ghost use Rattle.rtlil_signals.specs.Signals.{Scope, net_named, net_pieces};
ghost use Rattle.rtlil_signals.specs.declared.scope.NamedNet.{NamedNet};
ghost use Rattle.design_wires.specs.Connects.{has_no_constant};
ghost use Rattle.design_cells.specs.Joined.{Joined, joined_at};
ghost use Rattle.design_instances.specs.Joins.{is_input, joined_drives};
ghost use Rattle.design_instances.specs.Ports.{PortWires, wire_named};
ghost use Rattle.design_instances.specs.declared.port.PortWire.{PortWire};
ghost use Rattle.design_values.specs.Follows.{AllFollow, Values};

use circuit::law_of_sig_part;

/// In a valuation of a circuit of which no bit has two drives, all drives are followed.
#[tactic(auto, using(crate::proofs::Following::all_followed))]
pub fn law_of_following()
    ensures { (v : Values) → IsDrivenOnce v.circuit → IsValuation v.circuit v.state v.inputs v.digits → AllFollow v v.circuit.drives }
{}

/// The left signal of a connection has the number of the right one, bit for bit. Digits are 0 or 1, and constants below 2 to
/// their widths, as a program's are.
pub fn law_of_connections()
    ensures { (v : Values) (left right : List Piece) → AreBits v.digits → AreConstantsBelow right → has_no_constant left ≡ true → sig_width left ≡ sig_width right → AllFollow v (connected left right) → sig_number v.digits left ≡ sig_number v.digits right }
{
    law_of_sig_part();
}

/// An input of an instance has the number of the signal that is joined to it (`inputs`), or 0 where nothing is (`missing`), and a signal that
/// is joined to an output, and holds no constant, has the number of that (`outputs`).
pub fn law_of_ports()
    ensures inputs { (v : Values) (inside : Scope) (ports : PortWires) (js : List Joined) (k : ℕ) (j : Joined) (n : NamedNet) (sig : List Piece) → AreBits v.digits → AllFollow v (joined_drives inside ports js) → slice_get js k ≡ Some j → is_input (wire_named ports j.port) ≡ true → net_named inside j.port ≡ Some n → j.pieces ≡ Some sig → sig_width sig ≡ n.width → AreConstantsBelow sig → sig_number v.digits (net_pieces (Some n)) ≡ sig_number v.digits sig }
    ensures outputs { (v : Values) (inside : Scope) (ports : PortWires) (js : List Joined) (k : ℕ) (j : Joined) (n : NamedNet) (sig : List Piece) → AreBits v.digits → AllFollow v (joined_drives inside ports js) → slice_get js k ≡ Some j → is_input (wire_named ports j.port) ≡ false → net_named inside j.port ≡ Some n → j.pieces ≡ Some sig → sig_width sig ≡ n.width → has_no_constant sig ≡ true → sig_number v.digits sig ≡ sig_number v.digits (net_pieces (Some n)) }
    ensures missing { (v : Values) (inside : Scope) (ports : PortWires) (js : List Joined) (k : ℕ) (name : List ℕ) (w : PortWire) (n : NamedNet) → AllFollow v (joined_drives inside ports js) → slice_get ports k ≡ Some (name, w) → w.is_input ≡ true → joined_at js name ≡ None → net_named inside name ≡ Some n → sig_number v.digits (net_pieces (Some n)) ≡ 0 }
{
    law_of_sig_part();
}
