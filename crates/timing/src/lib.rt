// Settings, readings and leases: the limits, the wait, the phases, the widened counter, the ticks left.
#![tactic(auto)]

pub mod lease;
pub mod reading;
pub mod settings;
