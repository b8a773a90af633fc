//! A block of rows.
use crate::rows::Rows;
use sim_base::Time;

/// Rows that are repeated: row `i` of repeat `r` comes `r` periods and the row's offset behind the start of the block.
#[derive(Debug, Drop)]
pub struct Block {
    pub repeats: u64,
    pub period: Time,
    pub rows: Rows,
}
