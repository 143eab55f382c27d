// What can happen to a station, and what it answers.
pub use refusals::Refusal;
pub use room::event::{Ack, Event, Request, Sent};

// To keep the profile, to write it out first, or to release it.
#[derive(Clone, Copy, Debug, PartialEq, Eq)]
pub enum Advice {
    Keep,
    WriteOut,
    Release,
}

#[derive(Clone, Copy, Debug, PartialEq, Eq)]
pub enum Answer {
    Done,
    // A message to send, with its number.
    Sent(u32, Request),
    Advice(Advice),
    Refused(Refusal),
}
