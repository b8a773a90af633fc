//! What the words of the command line ask for.
use sim_base::Name;

/// What a call does.
#[derive(Clone, Copy, Debug, PartialEq, Eq)]
pub enum Mode {
    /// Prints the values of a run.
    Trace,
    /// Serves one client over the input and the output.
    Solo,
}

/// What the words ask for. What no word gives has its default: the number 0, no name, and for `listen` and
/// `clients` the place `127.0.0.1:9000` and one client.
#[derive(Debug, Drop)]
pub struct Command {
    pub mode: Mode,
    pub number: u32,
    /// The file of the design.
    pub design: Option<Name>,
    /// The file of the stimulus.
    pub stimulus: Option<Name>,
    /// The module that is run.
    pub top: Option<Name>,
    /// The file of a recording.
    pub spool: Option<Name>,
    /// The place at which clients are waited for.
    pub listen: Name,
    /// So many clients are served.
    pub clients: u32,
}
