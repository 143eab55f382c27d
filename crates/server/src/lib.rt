// The server engine: it takes any event at any reading, answers, and stops.
#![tactic(auto)]

pub mod border;
pub mod event;
mod judge; // an event, judged where the server stands
pub mod server;
mod sweep; // going over the stations and the profiles where they stand
mod tick;
