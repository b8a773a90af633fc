//! Laws of the meaning of circuits.
ghost use Rattle.std.specs.Prelude.{◌≡◌, ◌≤◌, ◌<◌, ℕ, ◌+◌, ◌-◌, ◌/◌, ◌%◌, List, true, Some, None, is_some, length, slice_get, slice_index, ◌^◌, Bool, false};
ghost use Rattle.std.specs.Int.{bit_at};
ghost use Rattle.sim_base.specs.BitValue.{BitValue};
ghost use Rattle.circuit.specs.Choices.{HasEdgeAt, IsHighestWrite, IsMarked};
ghost use Rattle.circuit.specs.Signal.{AreBits, Digits, piece_width, sig_number, sig_part, sig_width};
ghost use Rattle.circuit.specs.Output.{ReadsBit, is_zero, lowest, output};
ghost use Rattle.circuit.specs.Next.{highest_write, next, writes_at};
ghost use Rattle.circuit.specs.declared.cell.Cell.{Cell};
ghost use Rattle.circuit.specs.declared.netlist.Circuit.{Circuit};
ghost use Rattle.circuit.specs.declared.netlist.Net.{Net};
ghost use Rattle.circuit.specs.State.{State, same_state};
ghost use Rattle.circuit.specs.Valuation.{IsValuation, valuation, covers, digit_at, given};
ghost use Rattle.circuit.specs.Rounds.{FollowOn, Run, Standing, nets_after, rounds_from, run_length, settled, standing_after, standing_at, start_state};
ghost use Rattle.circuit.specs.Shown.{fails, fires_at, shown, some_edge};
ghost use Rattle.circuit.specs.declared.memory.WritePort.{WritePort};
ghost use Rattle.circuit.specs.declared.netlist.Piece.{Piece};
ghost use Rattle.circuit.specs.Acyclic.{IsInOrder};
ghost use Rattle.circuit.specs.Slots.{slot_widths};
ghost use Rattle.circuit.specs.Valid.{is_valid, sig_fits, sig_of};
ghost use Rattle.circuit.specs.StateOf.{IsStateOf};
ghost use Rattle.circuit.specs.Below.{AreConstantsBelow, AreRowsBelow, AreValuesBelow, IsStateBelow};
ghost use Rattle.circuit.specs.declared.diagnostic.Diag.{Diag};
ghost use Rattle.circuit.specs.declared.netlist.Drive.{Drive};

use crate::netlist::Circuit;

/// Where each bit has one driver and no bit depends on itself, each bit has exactly what its driver
/// gives, and nothing else has that property.
pub fn one_valuation(circuit: &Circuit)
    requires { IsInOrder circuit.now }
    ensures valuation { (state : State) (inputs : List ℕ) → IsValuation circuit.now state inputs (digit_at circuit.now state inputs) }
    ensures driver { (state : State) (inputs : List ℕ) (i net bit : ℕ) (d : Drive) → slice_get circuit.now.drives i ≡ Some d → covers net bit d ≡ true
        → digit_at circuit.now state inputs net bit ≡ given circuit.now state inputs (digit_at circuit.now state inputs) d.by (bit - d.at) }
    ensures only { (state : State) (inputs : List ℕ) (digits : Digits) → IsValuation circuit.now state inputs digits
        → (net bit : ℕ) → digits net bit ≡ digit_at circuit.now state inputs net bit }
{
    let _ = circuit;
}

/// The length of a run is the place of its first sample that does not settle, or else the number of its
/// samples.
pub fn length_of_run()
    ensures within { (run : Run) → run_length run ≤ run.count }
    ensures settled { (run : Run) (k : ℕ) → k < run_length run → is_some (standing_at run k) ≡ true }
    ensures unsettled { (run : Run) → run_length run < run.count → standing_at run (run_length run) ≡ None }
    ensures only { (run : Run) (k : ℕ) → k ≤ run.count → is_some (standing_after run k) ≡ true → (k < run.count → standing_at run k ≡ None) → run_length run ≡ k }
{}

/// What a sample leaves stands still: the nets have the values of its state, and a further round under the
/// same inputs changes nothing.
pub fn law_of_settling()
    ensures nets { (c : Circuit) (s t : Standing) (inputs : List ℕ) → settled c s inputs ≡ Some t → t.nets ≡ valuation c t.state inputs }
    ensures still { (c : Circuit) (s t : Standing) (inputs : List ℕ) → settled c s inputs ≡ Some t → same_state (next c t.state t.nets t.nets) t.state ≡ true }
{}

/// The rounds of a sample, at most 256: the first begins with the nets as the sample before it left them, each
/// other one with the nets of the round ahead of it. Where the sample settles, the last round ends with the
/// nets that the sample leaves; where it does not, there are 256.
pub fn law_of_succession()
    ensures follow { (c : Circuit) (s : Standing) (inputs : List ℕ) → FollowOn s.nets (rounds_from c (Some s) inputs) }
    ensures end { (c : Circuit) (s t : Standing) (inputs : List ℕ) → settled c s inputs ≡ Some t → nets_after s.nets (rounds_from c (Some s) inputs) ≡ t.nets }
    ensures most { (c : Circuit) (s : Standing) (inputs : List ℕ) → length (rounds_from c (Some s) inputs) ≤ 256 }
    ensures unsettled { (c : Circuit) (s : Standing) (inputs : List ℕ) → settled c s inputs ≡ None → length (rounds_from c (Some s) inputs) ≡ 256 }
{}

/// A diagnostic without a trigger fires exactly where it is enabled and does not hold in the nets that the
/// sample leaves.
pub fn law_of_diagnostics()
    ensures { (run : Run) (k : ℕ) (s : Standing) (d : Diag) → d.trigger ≡ None → standing_at run k ≡ Some s → fires_at run k d ≡ fails d s.nets }
{}

/// The output of a cell depends on nothing but the bits that it reads.
pub fn law_of_reading()
    ensures { (cell : Cell) (one other : Digits) → ((net bit : ℕ) → ReadsBit cell net bit → one net bit ≡ other net bit) → output one cell ≡ output other cell }
{}

/// Each net has a value of its width.
pub fn law_of_widths()
    ensures { (c : Circuit) (state : State) (inputs : List ℕ) (n : ℕ) (x : Net) → slice_get c.nets n ≡ Some x → slice_index (valuation c state inputs) n < 2 ^ x.width }
{}

/// After each sample there is a number for each net and register, and for each row and read port of each
/// memory; a round leaves them as many.
pub fn law_of_places()
    ensures start { (c : Circuit) → IsStateOf c (start_state c) }
    ensures next { (c : Circuit) (state : State) (before now : List ℕ) → IsStateOf c state → IsStateOf c (next c state before now) }
    ensures samples { (run : Run) (k : ℕ) (s : Standing) → standing_after run k ≡ Some s → IsStateOf run.circuit s.state }
    ensures nets { (run : Run) (k : ℕ) (s : Standing) → standing_after run k ≡ Some s → length s.nets ≡ length run.circuit.nets }
{}

/// Registers, rows and read ports keep values of their widths. The rows do so in every circuit; registers
/// and read ports need the widths of a valid circuit, and values of bits below 2 to their widths, as a
/// program's are.
pub fn law_of_keeping()
    ensures start { (c : Circuit) → is_valid c ≡ true → AreValuesBelow c → IsStateBelow c (start_state c) }
    ensures next { (c : Circuit) (state : State) (before now : List ℕ) → is_valid c ≡ true → AreValuesBelow c → IsStateBelow c state → IsStateBelow c (next c state before now) }
    ensures samples { (run : Run) (k : ℕ) (s : Standing) → is_valid run.circuit ≡ true → AreValuesBelow run.circuit → standing_after run k ≡ Some s → IsStateBelow run.circuit s.state }
    ensures rows { (run : Run) (k : ℕ) (s : Standing) → standing_after run k ≡ Some s → AreRowsBelow run.circuit s.state }
{}

/// A slot shows a value of its width, at each sample; what is no slot of the circuit shows 0.
pub fn law_of_showing()
    ensures { (run : Run) (k slot : ℕ) → shown run k slot < 2 ^ slice_index (slot_widths run.circuit) slot }
{}

/// Where the selector of a `$pmux` is not 0, the part that it takes is that of the lowest bit that is 1: this
/// bit is 1, and all below it are 0.
pub fn law_of_lowest()
    ensures within { (s : BitValue) → s.number < 2 ^ s.width → is_zero s ≡ false → lowest s < s.width }
    ensures one { (s : BitValue) → s.number < 2 ^ s.width → is_zero s ≡ false → bit_at s.number (lowest s) ≡ 1 }
    ensures below { (s : BitValue) (j : ℕ) → s.number < 2 ^ s.width → is_zero s ≡ false → j < lowest s → bit_at s.number j ≡ 0 }
{}

/// Of several marked ports that write one bit the highest wins: the port that writes and above which no marked
/// one does. Nothing is written exactly where no marked port writes.
pub fn law_of_writing()
    ensures highest { (before now : Digits) (address i : ℕ) (marks : List Bool) (ports : List WritePort) (n : ℕ) (p : WritePort)
        → IsHighestWrite before now address i marks ports n p → highest_write before now address i marks ports ≡ Some (bit_at (sig_number now p.word) i) }
    ensures written { (before now : Digits) (address i : ℕ) (marks : List Bool) (ports : List WritePort) (d : ℕ) → highest_write before now address i marks ports ≡ Some d
        → (n : ℕ) × (p : WritePort) × IsHighestWrite before now address i marks ports n p × (d ≡ bit_at (sig_number now p.word) i) }
    ensures none { (before now : Digits) (address i : ℕ) (marks : List Bool) (ports : List WritePort) → highest_write before now address i marks ports ≡ None
        → (n : ℕ) (p : WritePort) → slice_get ports n ≡ Some p → IsMarked marks n → writes_at before now address i p ≡ false }
    ensures unwritten { (before now : Digits) (address i : ℕ) (marks : List Bool) (ports : List WritePort)
        → ((n : ℕ) (p : WritePort) → slice_get ports n ≡ Some p → IsMarked marks n → writes_at before now address i p ≡ false) → highest_write before now address i marks ports ≡ None }
{}

/// A trigger has an edge exactly where one of its bits has it.
pub fn law_of_edges()
    ensures found { (before now : Digits) (on : List Piece) (rising : List Bool) → some_edge before now on 0 rising ≡ true → (i : ℕ) × HasEdgeAt before now on rising i }
    ensures given { (before now : Digits) (on : List Piece) (rising : List Bool) (i : ℕ) → HasEdgeAt before now on rising i → some_edge before now on 0 rising ≡ true }
{}

/// Bits of a signal, so many from one on, are a signal of so many bits, whose number is that of the whole,
/// divided and cut: its bit i is bit `at + i` of the whole. It fits where the whole does, and has no piece
/// without a bit. Digits are 0 or 1, and constants below 2 to their widths, as a program's are.
pub fn law_of_sig_part()
    ensures width { (at width : ℕ) (ps : List Piece) → at + width ≤ sig_width ps → sig_width (sig_part at width ps) ≡ width }
    ensures number { (digits : Digits) (at width : ℕ) (ps : List Piece) → AreBits digits → AreConstantsBelow ps → sig_number digits (sig_part at width ps) ≡ sig_number digits ps / 2 ^ at % 2 ^ width }
    ensures bit { (digits : Digits) (at width i : ℕ) (ps : List Piece) → AreBits digits → AreConstantsBelow ps → i < width → bit_at (sig_number digits (sig_part at width ps)) i ≡ bit_at (sig_number digits ps) (at + i) }
    ensures constants { (at width : ℕ) (ps : List Piece) → AreConstantsBelow (sig_part at width ps) }
    ensures some { (at width n : ℕ) (ps : List Piece) (p : Piece) → slice_get (sig_part at width ps) n ≡ Some p → 0 < piece_width p }
    ensures fits { (nets : List Net) (at width : ℕ) (ps : List Piece) → at + width ≤ sig_width ps → sig_fits nets ps ≡ true → sig_of nets width (sig_part at width ps) ≡ true }
{}
