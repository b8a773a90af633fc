//! The names of the commands.
ghost use Rattle.std.specs.Prelude.{◌≡◌};
ghost use Rattle.proto_packets.specs.Asked.{command_named};

/// A command by its name.
#[derive(Clone, Copy, Debug, PartialEq, Eq)]
pub enum Command {
    ListScopes,
    ListItems,
    ReferenceItems,
    QueryInterval,
    GetSimulationStatus,
    RunSimulation,
    PauseSimulation,
}

impl Command {
    pub fn named(name: &str) -> Option<Command>
        ensures { result ≡ command_named name.now }
    {
        match name {
            "list_scopes" => Some(Command::ListScopes),
            "list_items" => Some(Command::ListItems),
            "reference_items" => Some(Command::ReferenceItems),
            "query_interval" => Some(Command::QueryInterval),
            "get_simulation_status" => Some(Command::GetSimulationStatus),
            "run_simulation" => Some(Command::RunSimulation),
            "pause_simulation" => Some(Command::PauseSimulation),
            _ => None,
        }
    }
}
