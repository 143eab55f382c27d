// What can happen to a server, and what it answers.
pub use profiles::answer::Answer;
pub use requests::Request;

// A message of a station with its number, or a tick of the server's clock.
#[derive(Clone, Copy, Debug, PartialEq, Eq)]
pub enum Event {
    Message(u8, u32, Request),
    Tick,
}
