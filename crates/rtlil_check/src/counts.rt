//! How much a file has.
ghost use Rattle.std.specs.Prelude.{◌≡◌, length, min, sum_by};

use rtlil_tree::File;

/// How many modules a file has, and how many statements all of them have, of which no more are counted than
/// a number of 64 bits can name.
#[derive(Clone, Copy, Debug, PartialEq, Eq)]
pub struct Counts {
    pub modules: u64,
    pub statements: u64,
}

pub fn counts_of(file: &File) -> Counts
    ensures modules { result.modules ≡ length file.now.modules }
    ensures statements { result.statements ≡ min (sum_by (λ m. length m.statements) file.now.modules) 18446744073709551615 }
{
    let mut statements = 0u64;
    for module in file.modules.as_slice() {
        statements = statements.saturating_add(module.statements.as_slice().len() as u64);
    }
    Counts {
        modules: file.modules.as_slice().len() as u64,
        statements,
    }
}
