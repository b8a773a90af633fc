//! What the words of the command line ask for.
use sim_base::Name;

/// What a call does.
#[derive(Clone, Copy, Debug, PartialEq, Eq)]
pub enum Mode {
    /// Prints the values of a run.
    Trace,
    /// Serves one client over the input and the output.
    Solo,
    /// Runs a made design and prints a summary.
    Demo,
}

/// A run that is asked for. What no word gives has its default: the number 0, no name, and for `listen` and
/// `clients` the place `127.0.0.1:9000` and one client.
#[derive(Debug, Drop)]
pub struct Command {
    pub mode: Mode,
    pub number: u32,
    /// The file of the design.
    pub design: Option<Name>,
    /// The file of the stimulus.
    pub stimulus: Option<Name>,
    /// The module that is run, as it was written: `top_identifier` gives the module that is meant.
    pub top: Option<Name>,
    /// The file of a recording.
    pub spool: Option<Name>,
    /// The place at which clients are waited for.
    pub listen: Name,
    /// So many clients are served.
    pub clients: u32,
}

/// What the words ask for.
#[derive(Debug, Drop)]
pub enum Asked {
    /// A run.
    Command(Command),
    /// The text that says how the program is called.
    Help,
    /// The text that names the program's version.
    Version,
}
