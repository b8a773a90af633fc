//! The walk of a design: its instances, one inside another, and the statements of each.
#![tactic(auto)]

mod arrival;
mod cell;
mod flags;
mod instance;
mod laws;
mod modules;
mod place;
mod scopes;

pub use arrival::{Inside, arrive, arrive_at_top};
pub use cell::{clash_allowed, typed_cell};
pub use flags::clash_flags;
pub use instance::{InstanceModule, instance_module};
pub use laws::law_of_depth;
pub use modules::module_named;
pub use place::{Place, ShownFrom, here, place_within, top_place};
