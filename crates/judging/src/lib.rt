// An event of the server, judged before anything is stored: what refuses it, what has to be looked at, what it answers.
#![tactic(auto)]

pub mod event;
pub mod judge;
mod refusal;
