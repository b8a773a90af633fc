//! What comes behind the samples that were given.
use spool_format::Sample;

#[derive(Debug, Drop)]
pub enum Next {
    Sample(Sample),
    /// There is a next sample, and it does not settle.
    Unsettled,
    /// All samples were given.
    Over,
}
