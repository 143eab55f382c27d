// One profile at the server: who holds it in which mode, the marks on it, and the ask rule.
#![tactic(auto)]

pub mod answer;
pub mod ask;
pub mod profile;
mod row;
