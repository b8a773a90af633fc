//! Words of values of 1 to 64 bits.
ghost use Rattle.std.specs.Prelude.{◌≡◌, ℕ, int_lt, ◌%◌, ◌^◌, ◌<◌, ◌≤◌, true};
ghost use Rattle.sim_base.specs.BitValue.{digit_of};
ghost use Rattle.circuit.specs.Output.{CellInputs, formula, left, modulo, operand, right, truth};
ghost use Rattle.cell_words.specs.Kinds.{is_comparison, is_modular};

use circuit::Op;

/// A sum, a difference or a product, whose lowest digits are those of the operands' lowest digits.
#[inline(always)]
pub fn combined(op: Op, a: u64, b: u64) -> u64
    requires { is_modular op ≡ true }
    ensures { (i : CellInputs) (w : ℕ) → w ≤ 64 → modulo w (left i) ≡ a → modulo w (right i) ≡ b → result % 2 ^ w ≡ modulo w (formula op i) }
{
    match op {
        Op::Add => a.wrapping_add(b),
        Op::Sub => a.wrapping_sub(b),
        _ => a.wrapping_mul(b),
    }
}

/// Whether one word is below another, as whole numbers of so many digits, in two's complement where signed.
#[inline(always)]
fn is_below(signed: bool, width: u32, a: u64, b: u64) -> bool
    requires some { 0 < width }
    requires small { width ≤ 64 }
    requires a { a < 2 ^ width }
    requires b { b < 2 ^ width }
    ensures { result ≡ int_lt (operand signed width a) (operand signed width b) }
{
    if !signed {
        return a < b;
    }
    // Those below 0 come first among the words that are left.
    let half = 1u64 << (width - 1);
    a.wrapping_sub(half) < b.wrapping_sub(half)
}

/// What a comparison tells of two words.
#[inline(always)]
pub fn compared(op: Op, signed: bool, width: u32, a: u64, b: u64) -> bool
    requires kind { is_comparison op ≡ true }
    requires some { 0 < width }
    requires small { width ≤ 64 }
    requires a { a < 2 ^ width }
    requires b { b < 2 ^ width }
    ensures { (i : CellInputs) → left i ≡ operand signed width a → right i ≡ operand signed width b → formula op i ≡ truth result }
{
    match op {
        Op::Lt => is_below(signed, width, a, b),
        Op::Le => !is_below(signed, width, b, a),
        Op::Ge => !is_below(signed, width, a, b),
        _ => is_below(signed, width, b, a),
    }
}

/// A truth value as a word.
#[inline(always)]
pub fn digit(told: bool) -> u64
    ensures { result ≡ digit_of told }
{
    u64::from(told)
}
