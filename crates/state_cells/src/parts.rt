//! Words of digits that ports set and clear.
ghost use Rattle.std.specs.Prelude.{◌≡◌, ℕ, ◌<◌, ◌==◌, if◌then◌else◌};
ghost use Rattle.std.specs.Int.{bit_at};

/// The digits at which a port is active: those that are 1, or for a port that is active low those that
/// are 0.
pub(crate) fn active_digits(high: bool, word: u64) -> u64
    ensures { (j : ℕ) → j < 64 → (bit_at result j == 1) ≡ (bit_at word j == (if high then 1 else 0)) }
{
    if high { word } else { !word }
}

/// Each digit cleared, or else set, or else that of `rest`.
pub(crate) fn overlaid(rest: u64, set: u64, clear: u64) -> u64
    ensures { (j : ℕ) → j < 64 → bit_at result j ≡ (if bit_at clear j == 1 then 0 else (if bit_at set j == 1 then 1 else bit_at rest j)) }
{
    (rest | set) & !clear
}
