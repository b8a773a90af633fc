//! Rows of numbers.
ghost use Rattle.std.specs.Prelude.{◌≡◌, ℕ, ◌+◌, ◌<◌, ◌≤◌, length, slice_index};

/// Rows of numbers, one behind the other.
#[derive(Debug, Drop)]
pub struct Table {
    /// Where each row starts, and where the last one ends.
    pub starts: Vec<usize>,
    pub values: Vec<u32>,
    ghost some: { 0 < length starts.items },
    ghost rise: { (n : ℕ) → n + 1 < length starts.items → slice_index starts.items n ≤ slice_index starts.items (n + 1) },
    ghost inside: { (n : ℕ) → slice_index starts.items n ≤ length values.items },
}

impl Table {
    ghost use Rattle.eval_plan.specs.Tables.{table_row};

    /// A row. Behind the last one all are empty.
    pub fn row(&self, place: usize) -> &[u32]
        ensures { result.now ≡ table_row self.now place }
    {
        if place < self.starts.len() - 1 {
            &self.values[self.starts[place]..self.starts[place + 1]]
        } else {
            &[]
        }
    }
}
