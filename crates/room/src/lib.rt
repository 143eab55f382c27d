// What a room may do: its events, and the rules that refuse one.
#![tactic(auto)]

pub mod event;
pub mod refusal;
pub mod rules;
