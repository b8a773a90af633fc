//! What names stand for.

/// A wire of an instance, as it is found by its name.
#[derive(Clone, Copy, Debug, PartialEq, Eq)]
pub struct NamedNet {
    /// The number of its net.
    pub net: u32,
    /// In bits.
    pub width: u32,
}
