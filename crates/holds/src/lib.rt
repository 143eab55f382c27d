// What a room has: where it stands in its lease, and what it holds of each profile.
#![tactic(auto)]

pub mod hold;
pub mod stage;
