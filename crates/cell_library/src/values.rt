//! The numbers that a cell gives the parameters of its type, and the widths that they make.
ghost use Rattle.std.specs.Prelude.{◌≡◌, ◌^◌, ◌*◌};
ghost use Rattle.cell_library.specs.Values.{exact, given, in_range, is_sign, number, span_width};

use crate::line::{Parameter, Range, Span};
use crate::written::Setting;

/// The number that a parameter is given, or none. Of two settings of one name the first counts.
pub fn given(settings: &[Setting], parameter: Parameter) -> Option<u64>
    ensures { result ≡ given settings.now parameter }
{
    let name = parameter.name();
    for setting in settings {
        if setting.name.as_bytes() == name {
            return Some(setting.value);
        }
    }
    None
}

/// The number that a parameter is given, or 0.
pub fn number(settings: &[Setting], parameter: Parameter) -> u64
    ensures { result ≡ number settings.now parameter }
{
    given(settings, parameter).unwrap_or(0)
}

/// Whether an operand is signed, which it is not where nothing is given.
fn is_sign(parameter: Parameter) -> bool
    ensures { result ≡ is_sign parameter }
{
    parameter == Parameter::ASigned || parameter == Parameter::BSigned
}

/// Whether a parameter is given a number that it may have. A sign need not be given.
pub fn in_range(settings: &[Setting], parameter: Parameter) -> bool
    ensures { result ≡ in_range parameter (given settings.now parameter) }
{
    match given(settings, parameter) {
        None => is_sign(parameter),
        Some(value) => parameter.range() != Range::Size || value < 0x8000_0000,
    }
}

fn scaled(value: u64, power: u64) -> Option<u64>
    ensures { result ≡ exact (value * 2 ^ power) }
{
    if value == 0 {
        return Some(0);
    }
    if power >= 64 {
        return None;
    }
    value.checked_mul(1 << power)
}

/// A width in bits, or none from 2^64 on.
pub fn span_width(settings: &[Setting], span: Span) -> Option<u64>
    ensures { result ≡ exact (span_width settings.now span) }
{
    match span {
        Span::One => Some(1),
        Span::Of(width) => Some(number(settings, width)),
        Span::Sum(low, high) => number(settings, low).checked_add(number(settings, high)),
        Span::Product(width, count) => number(settings, width).checked_mul(number(settings, count)),
        Span::Scaled(width, power) => scaled(number(settings, width), number(settings, power)),
    }
}
