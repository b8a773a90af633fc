//! Room for numbers.
ghost use Rattle.std.specs.Prelude.{◌≡◌, IfOk, length, replicate};

use sim_base::NoMemory;
use std::alloc::Global;

/// So many words that are 0.
pub fn zeros(alloc: Global, count: usize) -> Result<Vec<u64>, NoMemory>
    ensures words { IfOk result (λ words. words.items ≡ replicate count 0) }
    ensures long { IfOk result (λ words. length words.items ≡ count) }
{
    let words = vec![in alloc; 0u64; count]?;
    Ok(words)
}
