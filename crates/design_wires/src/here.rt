//! Where a part of a design stands.

/// Where the names of an instance are shown.
#[derive(Clone, Copy, Debug)]
pub struct Shown<'a> {
    /// What they begin with: the identifiers on the way to the instance without the `\`, each with a space behind
    /// it.
    pub prefix: &'a [u8],
    /// The number of its scope.
    pub scope: u32,
}

/// An instance of a module.
#[derive(Clone, Copy, Debug)]
pub struct Here<'a> {
    /// The identifier of the module.
    pub owner: &'a [u8],
    /// What the paths in it begin with: the identifiers on the way to it, each with a space behind it.
    pub prefix: &'a [u8],
    /// Where it is shown, if each identifier on the way to it begins with `\`.
    pub shown: Option<Shown<'a>>,
}
