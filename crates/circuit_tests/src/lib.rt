//! Tests of `circuit`, `driver_check` and `eval_plan`, which use their public items alone.
#![tactic(auto)]

#[cfg(test)]
mod faults;
#[cfg(test)]
mod order;
#[cfg(test)]
mod plans;
#[cfg(test)]
mod validity;
#[cfg(test)]
mod whole;
