//! Rows of the cell library, worked by hand: what the definitions give for them.
ghost use Rattle.std.specs.Prelude.{◌≡◌, [], ◌∷◌, ◌-◌, ◌*◌, ◌^◌, true, false, length};
ghost use Rattle.sim_base.specs.BitValue.{bit_value};
ghost use Rattle.circuit.specs.Next.{next_by};
ghost use Rattle.circuit.specs.Rounds.{rounds_at, run_length};
ghost use Rattle.worked_rows.specs.Worked.{binary, unary, selected, traced, nets_in_rounds, already_high, chained, derived_clock, restless, read_and_written, written_twice, watched, hit_at, at_edge};
ghost use Rattle.circuit.specs.declared.cell.Op.TheVariants as op;
ghost use Rattle.circuit.specs.declared.register.RegKind.TheVariants as kind;

/// Cells of 8 bits with signed operands -7 and 2, with a divisor 0, and shifts.
pub fn worked_arithmetic()
    ensures quotient { binary op.Div true 8 (bit_value 8 0xF9) (bit_value 8 2) ≡ 0xFD }
    ensures remainder { binary op.Mod true 8 (bit_value 8 0xF9) (bit_value 8 2) ≡ 0xFF }
    ensures floor { binary op.DivFloor true 8 (bit_value 8 0xF9) (bit_value 8 2) ≡ 0xFC }
    ensures floor_remainder { binary op.ModFloor true 8 (bit_value 8 0xF9) (bit_value 8 2) ≡ 1 }
    ensures by_zero { binary op.Div true 8 (bit_value 8 0xF9) (bit_value 8 0) ≡ 0 }
    ensures remainder_by_zero { binary op.Mod true 8 (bit_value 8 0xF9) (bit_value 8 0) ≡ 0 }
    ensures floor_by_zero { binary op.DivFloor true 8 (bit_value 8 0xF9) (bit_value 8 0) ≡ 0 }
    ensures floor_remainder_by_zero { binary op.ModFloor true 8 (bit_value 8 0xF9) (bit_value 8 0) ≡ 0 }
    ensures carry { binary op.Add false 128 (bit_value 128 (2 ^ 128 - 1)) (bit_value 1 1) ≡ 0 }
    ensures negative { unary op.Neg false 8 (bit_value 4 1) ≡ 0xFF }
    ensures sign_fills { binary op.Sshr true 8 (bit_value 8 0x80) (bit_value 8 3) ≡ 0xF0 }
    ensures zero_fills { binary op.Shr true 8 (bit_value 8 0x80) (bit_value 8 3) ≡ 0x10 }
    ensures left_by_a_negative { binary op.Shift true 8 (bit_value 8 1) (bit_value 4 0b1110) ≡ 4 }
    ensures all_shifted_out { binary op.Shl false 8 (bit_value 8 0xFF) (bit_value 8 9) ≡ 0 }
    ensures nothing_is_all_ones { unary op.ReduceAnd false 1 (bit_value 0 0) ≡ 1 }
{}

/// Cells that select parts.
pub fn worked_selections()
    ensures lowest { selected op.Pmux 8 (bit_value 8 0) (bit_value 16 0x2211) (bit_value 2 0b11) ≡ 0x11 }
    ensures highest_alone { selected op.Pmux 8 (bit_value 8 0) (bit_value 256 (0x5A * 2 ^ 248)) (bit_value 32 (2 ^ 31)) ≡ 0x5A }
    ensures part { selected op.Bmux 2 (bit_value 4 0b1001) (bit_value 0 0) (bit_value 1 1) ≡ 0b10 }
    ensures placed { selected op.Demux 4 (bit_value 2 0b11) (bit_value 0 0) (bit_value 1 1) ≡ 0b1100 }
    ensures bit_by_bit { selected op.Bwmux 4 (bit_value 4 0b0011) (bit_value 4 0b0101) (bit_value 4 0b0110) ≡ 0b0101 }
{}

/// Registers that are cleared and set at once, and that are reset while they are not enabled.
pub fn worked_registers()
    ensures cleared { next_by kind.Dffsr 1 (at_edge false false true) 1 ≡ 0 }
    ensures held_back { next_by kind.Sdffce 2 (at_edge false true false) 3 ≡ 3 }
    ensures reset { next_by kind.Sdffe 2 (at_edge false true false) 3 ≡ 2 }
{}

/// Circuits over their first samples.
pub fn worked_runs()
    ensures already_high { traced already_high (0 ∷ []) 1 ≡ 1 ∷ [] }
    ensures first_of_chain { traced chained (0 ∷ 1 ∷ 2 ∷ 3 ∷ []) 1 ≡ 0 ∷ 1 ∷ 1 ∷ 1 ∷ [] }
    ensures second_of_chain { traced chained (0 ∷ 1 ∷ 2 ∷ 3 ∷ []) 2 ≡ 0 ∷ 0 ∷ 0 ∷ 1 ∷ [] }
    ensures taken { traced derived_clock (0 ∷ 1 ∷ []) 1 ≡ 0 ∷ 1 ∷ [] }
    ensures divided { traced derived_clock (0 ∷ 1 ∷ []) 2 ≡ 0 ∷ 1 ∷ [] }
    ensures behind_divided { traced derived_clock (0 ∷ 1 ∷ []) 3 ≡ 0 ∷ 1 ∷ [] }
    ensures restless { run_length restless ≡ 1 }
    ensures transparent { traced read_and_written (1 ∷ 3 ∷ []) 1 ≡ 0xA5 ∷ 0xA5 ∷ [] }
    ensures old_row { traced read_and_written (1 ∷ 3 ∷ []) 2 ≡ 0 ∷ 0xA5 ∷ [] }
    ensures highest_port { traced written_twice (0 ∷ 1 ∷ []) 1 ≡ 0xAB ∷ 0 ∷ [] }
{}

/// What slots show of a register, of the rows of a memory, of an assertion without a trigger and of an
/// assumption with one, and where these two are hit.
pub fn worked_slots()
    ensures register { traced watched (0 ∷ 1 ∷ 2 ∷ 3 ∷ []) 1 ≡ 0 ∷ 1 ∷ 1 ∷ 1 ∷ [] }
    ensures other_row { traced watched (0 ∷ 1 ∷ 2 ∷ 3 ∷ []) 3 ≡ 0 ∷ 0 ∷ 0 ∷ 0 ∷ [] }
    ensures row { traced watched (0 ∷ 1 ∷ 2 ∷ 3 ∷ []) 4 ≡ 0xAB ∷ 0x5A ∷ 0x5A ∷ 0x5A ∷ [] }
    ensures assertion { traced watched (0 ∷ 1 ∷ 2 ∷ 3 ∷ []) 6 ≡ 1 ∷ 0 ∷ 0 ∷ 0 ∷ [] }
    ensures assumption { traced watched (0 ∷ 1 ∷ 2 ∷ 3 ∷ []) 7 ≡ 0 ∷ 1 ∷ 0 ∷ 0 ∷ [] }
    ensures no_slot { traced watched (0 ∷ 1 ∷ []) 8 ≡ 0 ∷ 0 ∷ [] }
    ensures assert_hits { hit_at true false (0 ∷ 1 ∷ 2 ∷ []) ≡ true ∷ false ∷ false ∷ [] }
    ensures assume_hits { hit_at false true (0 ∷ 1 ∷ 2 ∷ []) ≡ false ∷ true ∷ false ∷ [] }
    ensures no_hits { hit_at false false (0 ∷ 1 ∷ 2 ∷ []) ≡ false ∷ false ∷ false ∷ [] }
{}

/// The rounds of one sample. Behind a clock that a register gives, a register changes one round after it,
/// and in the last round nothing changes; a latch that takes its own inverse changes in all 256.
pub fn worked_rounds()
    ensures derived { nets_in_rounds derived_clock 1 ≡ (1 ∷ 0 ∷ 0 ∷ 0 ∷ 1 ∷ []) ∷ (1 ∷ 1 ∷ 1 ∷ 0 ∷ 0 ∷ []) ∷ (1 ∷ 1 ∷ 1 ∷ 1 ∷ 0 ∷ []) ∷ [] }
    ensures disabled { nets_in_rounds restless 0 ≡ (0 ∷ 0 ∷ 1 ∷ []) ∷ [] }
    ensures enabled { length (rounds_at restless 1) ≡ 256 }
{}
