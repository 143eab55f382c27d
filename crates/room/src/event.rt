// What can happen to a station, and what waits.
use modes::Mode;
pub use requests::Request;

// A message that waits, and the reading at its sending. Its number is the last number.
#[derive(Clone, Copy, Debug, PartialEq, Eq)]
pub struct Sent {
    pub request: Request,
    pub at: u64,
}

// What an ACK says: done, or of a profile.
#[derive(Clone, Copy, Debug, PartialEq, Eq)]
pub enum Ack {
    Done,
    Granted(u8, Mode),
    Wait(u8),
    InUse(u8),
}

#[derive(Clone, Copy, Debug, PartialEq, Eq)]
pub enum Event {
    Send(Request),
    // Begin an operation in a mode.
    Begin(u8, Mode),
    Edit(u8),
    End(u8),
    WriteOut(u8),
    Restart,
    // From the server: the station named, the number, what it says.
    Ack(u8, u32, Ack),
    // Kept: the detail is a plain number, since `Station::step` takes every one, also one that is none of the paper's.
    Nack(u8, u32, u8),
    // The station named, the profile and the mode that another wants.
    Demand(u8, u8, Mode),
}
