//! What a client's packets make of it, and why they are refused.
ghost use Rattle.std.specs.Prelude.{◌≡◌, ◌≢◌, Err, Ok, Some};
ghost use Rattle.proto_packets.specs.declared.fault.PacketFault.TheVariants as faults;
ghost use Rattle.session_core.specs.Refusals.{client_after, error_of, greets, new_client};

use proto_packets::{PacketFault, Request};
use proto_replies::ErrorKind;
use std::marker::Model;

/// What its packets so far made of a client. A contract sees whether it is greeted, and its references, of which it has none,
/// since the commands on references are not served yet.
#[derive(Debug, Drop)]
pub struct Client {
    greeted: bool,
}

impl Model for Client {
    ghost use Rattle.std.specs.Prelude.{[]};
    ghost use Rattle.session_core.specs.Refusals as refusals;

    ghost Value = { refusals.Client };

    ghost view = { λ client. record { greeted = client.greeted; references = [] } };
}

impl Client {
    /// A client that sent nothing yet.
    pub fn new() -> Client
        ensures { result ≡ new_client }
    {
        Client { greeted: false }
    }

    /// Whether a greeting of it was accepted.
    pub fn is_greeted(&self) -> bool
        ensures { result ≡ self.now.greeted }
    {
        self.greeted
    }

    /// Why a packet is refused, where it is: the first error that holds for it.
    pub fn refusal(&self, read: &Result<Request, PacketFault>) -> Option<ErrorKind>
        requires { read.now ≢ Err faults.NoMemory }
        ensures { result ≡ error_of self.now read.now }
    {
        match read {
            Ok(request) => self.refusal_of_request(request),
            Err(fault) => Some(error_of_fault(*fault)),
        }
    }

    fn refusal_of_request(&self, request: &Request) -> Option<ErrorKind>
        ensures { result ≡ error_of self.now (Ok request.now) }
    {
        match request {
            Request::Greeting { .. } if self.greeted => Some(ErrorKind::AlreadyGreeted),
            Request::Greeting { version: 0 } => None,
            Request::Greeting { .. } => Some(ErrorKind::InvalidVersion),
            Request::Status | Request::RunSimulation { .. } if self.greeted => None,
            Request::Status | Request::RunSimulation { .. } => Some(ErrorKind::NotGreeted),
            _ => Some(ErrorKind::InvalidCommand),
        }
    }

    /// Takes one more packet of the client in.
    pub fn take_in(&mut self, read: &Result<Request, PacketFault>)
        ensures { self.new ≡ client_after self.old read.now }
    {
        self.greeted = self.greeted || is_greeting(read);
    }
}

/// A greeting of version 0.
fn is_greeting(read: &Result<Request, PacketFault>) -> bool
    ensures { result ≡ greets read.now }
{
    matches!(read, Ok(Request::Greeting { version: 0 }))
}

fn error_of_fault(fault: PacketFault) -> ErrorKind
    requires { fault ≢ faults.NoMemory }
    ensures { error_of new_client (Err fault) ≡ Some result }
{
    match fault {
        PacketFault::Json => ErrorKind::InvalidJson,
        PacketFault::Packet => ErrorKind::InvalidPacket,
        PacketFault::Command => ErrorKind::InvalidCommand,
        PacketFault::Argument | PacketFault::NoMemory => ErrorKind::InvalidArgument,
    }
}
