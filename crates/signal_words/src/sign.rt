//! Signs, in two's complement.
ghost use Rattle.std.specs.Prelude.{◌≡◌, ◌&&◌, ◌==◌, ◌-◌, ◌<◌, ◌≤◌, ◌^◌};
ghost use Rattle.std.specs.Int.{bit_at};

use circuit::Cell;

/// Whether both operands of a cell are signed.
#[inline(always)]
pub fn are_signed(cell: &Cell) -> bool
    ensures { result ≡ (cell.now.a_signed && cell.now.b_signed) }
{
    cell.a_signed && cell.b_signed
}

/// Whether the highest bit of a number of this width is 1.
#[inline(always)]
pub fn is_negative(number: u64, width: u32) -> bool
    requires small { width ≤ 64 }
    requires below { number < 2 ^ width }
    ensures { result ≡ (bit_at number (width - 1) == 1) }
{
    width > 0 && (number >> (width - 1)) & 1 == 1
}
