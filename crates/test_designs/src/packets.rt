//! Packets of a client, without the zero byte that ends each.

/// A greeting of version 0.
pub const GREETING: &str = r#"{"type":"greeting","version":0}"#;

/// A greeting of another version.
pub const VERSION_1: &str = r#"{"type":"greeting","version":1}"#;

/// Asks where the run stands.
pub const STATUS: &str = r#"{"type":"command","command":"get_simulation_status"}"#;

/// Asks for the whole run.
pub const RUN: &str = r#"{"type":"command","command":"run_simulation"}"#;

/// Asks for the run up to 15 nanoseconds.
pub const RUN_UNTIL_15: &str =
    r#"{"type":"command","command":"run_simulation","until_time":"0.000000015"}"#;

/// Asks for the scopes.
pub const SCOPES: &str = r#"{"type":"command","command":"list_scopes"}"#;

/// The packet of this name.
pub fn packet(name: &str) -> &'static str {
    match name {
        "nothing" => "",
        "greeting" => GREETING,
        "version_1" => VERSION_1,
        "status" => STATUS,
        "run" => RUN,
        "run_until_15" => RUN_UNTIL_15,
        "scopes" => SCOPES,
        _ => "none of these",
    }
}
