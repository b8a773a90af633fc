//! Slices of a signal.
ghost use Rattle.std.specs.Prelude.{◌≡◌, ◌<◌, ◌≤◌, ◌+◌, ◌^◌};
ghost use Rattle.rtlil_signals.specs.Slices.{chosen, is_inside, narrowed};

use rtlil_tree::Slice;

/// Bits of a signal: so many from one on.
#[derive(Clone, Copy, Debug, PartialEq, Eq)]
pub struct Range {
    pub at: u128,
    pub width: u128,
}

fn is_inside(width: u128, slice: &Slice) -> bool
    ensures { result ≡ is_inside width slice.now }
{
    slice.low <= slice.high && (slice.high as u128) < width
}

/// The bits that a slice chooses of these.
fn narrowed(range: Range, slice: &Slice) -> Range
    requires order { slice.now.low ≤ slice.now.high }
    requires inside { slice.now.high < range.width }
    requires room { range.at + range.width < 2 ^ 128 }
    ensures { result ≡ narrowed range slice.now }
{
    Range {
        at: range.at + slice.low as u128,
        width: slice.high as u128 + 1 - slice.low as u128,
    }
}

/// The bits that slices choose, each of those that the one before it chose, the first of so many bits; none
/// where one is outside of those.
pub(crate) fn chosen(width: u128, slices: &[Slice]) -> Option<Range>
    ensures { result ≡ chosen (record { at = 0; width = width }) slices.now }
{
    let mut range = Range { at: 0, width };
    for slice in slices {
        if !is_inside(range.width, slice) {
            return None;
        }
        range = narrowed(range, slice);
    }
    Some(range)
}
