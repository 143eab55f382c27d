// The room engine: it takes any event at any reading, answers, and stops.
#![tactic(auto)]

pub mod border;
mod effect;
pub mod event;
mod parts;
pub mod station;
