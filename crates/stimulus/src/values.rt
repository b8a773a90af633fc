//! The values of a row.
ghost use Rattle.std.specs.Prelude.{◌≡◌, IfOk, map};
ghost use Rattle.std.specs.Option.{option_map};
ghost use Rattle.stimulus_text.specs.Numbers.{number_of};
ghost use Rattle.stimulus.specs.Steps.{values_of};

use sim_base::NoMemory;
use std::alloc::Global;
use stimulus_text::{Value, read_value};

/// The values of a row, one for each column and below 2 to its width in bits; none for other words.
pub(crate) fn read_values(
    alloc: Global,
    widths: &[u32],
    words: &[&[u8]],
) -> Result<Option<Vec<Value>>, NoMemory>
    ensures { IfOk result (λ values. option_map (λ v. map number_of v.items) values ≡ values_of widths.now (map (λ x. x.now) words.now)) }
{
    if words.len() != widths.len() {
        return Ok(None);
    }
    let mut values = Vec::with_capacity(alloc, widths.len())?;
    for i in 0..widths.len() {
        match read_value(alloc, widths[i], words[i])? {
            Some(value) => values.push(value)?,
            None => return Ok(None),
        }
    }
    Ok(Some(values))
}
