//! What a client is sent, without the zero byte that ends each text.

/// Answers a greeting.
pub const GREETED: &str =
    r#"{"commands":["list_scopes","list_items","reference_items","query_interval","get_simulation_status","run_simulation","pause_simulation"],"events":["simulation_paused","simulation_finished"],"features":{"item_values_encoding":["base64(u32)"]},"type":"greeting","version":0}"#;

/// Answers a command to run.
pub const RUNS: &str = r#"{"command":"run_simulation","type":"response"}"#;

/// The run has reached the time that was asked for, 15 nanoseconds.
pub const PAUSED_AT_15: &str =
    r#"{"cause":"until_time","event":"simulation_paused","time":"0.000000015000000","type":"event"}"#;

/// The run of 512 samples has ended.
pub const FINISHED: &str =
    r#"{"event":"simulation_finished","time":"0.000002555000000","type":"event"}"#;

/// The run has ended at its first sample.
pub const FINISHED_AT_0: &str =
    r#"{"event":"simulation_finished","time":"0.000000000000000","type":"event"}"#;

/// The status at the first of six samples.
pub const STANDS_AT_0: &str =
    r#"{"command":"get_simulation_status","latest_time":"0.000000000000000","next_sample_time":"0.000000005000000","status":"paused","type":"response"}"#;

/// The status at the fourth of six samples.
pub const STANDS_AT_15: &str =
    r#"{"command":"get_simulation_status","latest_time":"0.000000015000000","next_sample_time":"0.000000020000000","status":"paused","type":"response"}"#;

/// The status at the 257th of 512 samples, with a goal ahead.
pub const RUNNING: &str =
    r#"{"command":"get_simulation_status","latest_time":"0.000001280000000","next_sample_time":"0.000001285000000","status":"running","type":"response"}"#;

/// Refuses what is no JSON.
pub const NO_JSON: &str =
    r#"{"error":"invalid_json","message":"the packet is not JSON","type":"error"}"#;

/// Refuses a greeting of another version.
pub const WRONG_VERSION: &str =
    r#"{"error":"invalid_version","message":"the version is not 0","type":"error"}"#;

/// Refuses a second greeting.
pub const GREETED_AGAIN: &str =
    r#"{"error":"already_greeted","message":"the greeting was already received","type":"error"}"#;

/// Refuses an unknown command.
pub const UNKNOWN: &str =
    r#"{"error":"invalid_command","message":"the command is unknown","type":"error"}"#;

/// Refuses a command before a greeting.
pub const NOT_GREETED: &str =
    r#"{"error":"not_greeted","message":"no greeting was received","type":"error"}"#;

/// Refuses a packet that is too long.
pub const TOO_LONG: &str =
    r#"{"error":"packet_too_long","message":"the packet is too long","type":"error"}"#;

/// The reply of this name.
pub fn reply(name: &str) -> &'static str {
    match name {
        "greeted" => GREETED,
        "runs" => RUNS,
        "paused_at_15" => PAUSED_AT_15,
        "finished" => FINISHED,
        "finished_at_0" => FINISHED_AT_0,
        "stands_at_0" => STANDS_AT_0,
        "stands_at_15" => STANDS_AT_15,
        "running" => RUNNING,
        "no_json" => NO_JSON,
        "wrong_version" => WRONG_VERSION,
        "greeted_again" => GREETED_AGAIN,
        "unknown" => UNKNOWN,
        "not_greeted" => NOT_GREETED,
        "too_long" => TOO_LONG,
        _ => "none of these",
    }
}
