//! How a call ends, and the status that says it.
ghost use Rattle.std.specs.Prelude.{◌≡◌};
ghost use Rattle.cxxsim.specs.Outcome.{closed_status, if_logged, if_settled, served_status, status_of, traced_status};

use crate::refusal::Refusal;
use crate::session::Closed;
use crate::tracing::TraceFault;
use sim_base::NoMemory;
use solo_session::Ending;

/// How a call with a command ended.
#[derive(Clone, Copy, Debug, PartialEq, Eq)]
pub enum Outcome {
    /// A file could not be read.
    Unread,
    /// A file is refused; says whether the log has got its line.
    Refused(Refusal, bool),
    /// A trace; where it was printed whole, says whether a sample did not settle.
    Traced(Result<bool, TraceFault>),
    /// A session with one client.
    Served(Result<Closed, NoMemory>),
    /// Memory was wanting while the files were read.
    NoMemory,
}

impl Outcome {
    /// The status that the program ends with.
    pub fn status(self) -> u8
        ensures { result ≡ status_of self }
    {
        match self {
            Outcome::Unread => 3,
            Outcome::Refused(_, logged) => if_logged(logged, 4),
            Outcome::Traced(traced) => traced_status(traced),
            Outcome::Served(served) => served_status(served),
            Outcome::NoMemory => 8,
        }
    }
}

/// The status, or that of a write that failed where the log did.
pub(crate) fn if_logged(logged: bool, status: u8) -> u8
    ensures { result ≡ if_logged logged status }
{
    if logged { status } else { 5 }
}

/// The status of a run that was followed to its end, or to a sample that does not settle.
fn if_settled(unsettled: bool) -> u8
    ensures { result ≡ if_settled unsettled }
{
    if unsettled { 6 } else { 0 }
}

/// The status of a trace.
fn traced_status(traced: Result<bool, TraceFault>) -> u8
    ensures { result ≡ traced_status traced }
{
    match traced {
        Ok(unsettled) => if_settled(unsettled),
        Err(TraceFault::Write) => 5,
        Err(TraceFault::NoMemory) => 8,
    }
}

/// The status of a session, where memory was not wanting.
fn served_status(served: Result<Closed, NoMemory>) -> u8
    ensures { result ≡ served_status served }
{
    match served {
        Ok(closed) => closed_status(closed),
        Err(NoMemory) => 8,
    }
}

/// The status of a session: what ended it comes first, then a log that failed.
fn closed_status(closed: Closed) -> u8
    ensures { result ≡ closed_status closed }
{
    match closed.ending {
        Ending::InputFailed => 3,
        Ending::Limit => 9,
        Ending::OutputFailed => 5,
        Ending::Served => if_logged(closed.logged, if_settled(closed.unsettled)),
    }
}
