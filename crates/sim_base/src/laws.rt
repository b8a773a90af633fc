//! Laws of numbers in parts.
ghost use Rattle.std.specs.Prelude.{◌≡◌, ℕ, ◌*◌, ◌/◌, ◌%◌, ◌^◌, ◌<◌, length, slice_index};
ghost use Rattle.sim_base.specs.BitValue.{BitValue};
ghost use Rattle.sim_base.specs.Parts.{halves_of, number_of_parts, parts};
ghost use Rattle.sim_base.specs.Shape.{words_of_width};

/// A number has as many parts as are asked for. Each is below 2 to their width and is cut out of the number at
/// its place, and together they make the number's lowest bits.
pub fn law_of_number_parts()
    ensures count { (width count n : ℕ) → length (parts width count n) ≡ count }
    ensures below { (width count n i : ℕ) → slice_index (parts width count n) i < 2 ^ width }
    ensures part { (width count n i : ℕ) → i < count → slice_index (parts width count n) i ≡ n / 2 ^ (i * width) % 2 ^ width }
    ensures number { (width count n : ℕ) → number_of_parts width (parts width count n) ≡ n % 2 ^ (count * width) }
{}

/// The words of 32 bits of a value are as many as its width takes, and make its number.
pub fn law_of_halves()
    ensures count { (v : BitValue) → length (halves_of v) ≡ words_of_width v.width }
    ensures number { (v : BitValue) → v.number < 2 ^ v.width → number_of_parts 32 (halves_of v) ≡ v.number }
{}
