//! What is answered to a client, or told to it.

use sim_base::Time;

/// One reply, event or error. It is lent to whoever writes it, since it may carry texts.
#[derive(Debug, Drop, PartialEq, Eq)]
pub enum Answer {
    /// The reply to a greeting: the commands, the events and the encoding of values.
    Greeting,
    /// The reply to `reference_items`.
    ReferenceItems,
    /// The reply to `run_simulation`.
    RunSimulation,
    /// The reply to `pause_simulation`, with the time of the latest sample.
    PauseSimulation {
        time: Time,
    },
    /// The reply to `get_simulation_status`: the time of the latest sample, and that of the next one, which a
    /// run that is finished lacks.
    Status {
        latest: Time,
        state: RunState,
        next: Option<Time>,
    },
    /// The event that the run paused, at the time of its latest sample.
    Paused {
        cause: Cause,
        time: Time,
    },
    /// The event that the run is finished, at the time of its latest sample.
    Finished {
        time: Time,
    },
    /// The reply to a packet that is refused.
    Error(ErrorKind),
}

/// How the run stands.
#[derive(Clone, Copy, Debug, PartialEq, Eq)]
pub enum RunState {
    /// Samples are being recorded.
    Running,
    /// Nothing is recorded until a run is asked for.
    Paused,
    /// All samples are recorded, or one did not settle.
    Finished,
}

/// Why the run paused.
#[derive(Clone, Copy, Debug, PartialEq, Eq)]
pub enum Cause {
    /// Its time was reached, or a client asked for it.
    UntilTime,
    /// A diagnostic fired that the run was to stop at.
    UntilDiagnostics,
}

/// Why a packet is refused.
#[derive(Clone, Copy, Debug, PartialEq, Eq)]
pub enum ErrorKind {
    /// It is not JSON.
    InvalidJson,
    /// It is not a greeting or a command.
    InvalidPacket,
    /// No command has this name.
    InvalidCommand,
    /// An argument is missing, of a wrong kind, or no time.
    InvalidArgument,
    /// A command came before a greeting was accepted.
    NotGreeted,
    /// A greeting came after one was accepted.
    AlreadyGreeted,
    /// The version of a greeting is not 0.
    InvalidVersion,
    /// No scope has this name.
    InvalidScope,
    /// No item has this name, or its rows do not fit it, or too much is asked for.
    InvalidItem,
    /// No reference has this name, or there would be too many.
    InvalidReference,
    /// An interval ends before it begins.
    InvalidInterval,
    /// Values are not encoded so.
    InvalidEncoding,
    /// There are too many bytes before the zero byte.
    PacketTooLong,
}
