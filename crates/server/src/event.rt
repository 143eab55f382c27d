// What can happen to a server, and what it answers.
pub use judging::event::{Answer, Event, Request};
