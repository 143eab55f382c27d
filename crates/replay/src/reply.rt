// What is printed for a line.
use crate::hex::{Bytes, Hex};
use crate::room_reply::RoomReply;
use crate::server_reply::ServerReply;
use record::Message;
use refusals::Refusal;
use std::error::Error;
use std::fmt;

#[derive(Drop)]
pub(crate) enum Reply {
    Server(ServerReply),
    Room(RoomReply),
    Reading(u64),
    Ticks(i64),
    // The message and the place after it.
    Message(Message, usize),
    // The place after the message, or why it was not written, and the buffer afterwards.
    Written(Result<usize, Refusal>, Bytes),
}

// Why there is no reply.
#[derive(Clone, Copy, Debug)]
pub(crate) enum Fault {
    BadLine,
    NoSettings,
    Refused(Refusal),
}

impl From<Refusal> for Fault {
    fn from(refusal: Refusal) -> Fault {
        Fault::Refused(refusal)
    }
}

impl Error for Fault {}

impl fmt::Display for Fault {
    fn fmt<W: fmt::Write>(&self, f: &mut fmt::Formatter<W>) -> fmt::Result {
        match self {
            Fault::BadLine => f.write_str("bad line"),
            Fault::NoSettings => f.write_str("no settings"),
            Fault::Refused(refusal) => refusal.fmt(f),
        }
    }
}

impl fmt::Display for Reply {
    fn fmt<W: fmt::Write>(&self, f: &mut fmt::Formatter<W>) -> fmt::Result {
        match self {
            Reply::Server(reply) => reply.fmt(f),
            Reply::Room(reply) => reply.fmt(f),
            Reply::Reading(reading) => write!(f, "reading {reading}"),
            Reply::Ticks(ticks) => write!(f, "ticks {ticks}"),
            Reply::Message(message, next) => {
                let m = *message;
                write!(f, "message {} {} {} ", m.kind, m.station, m.number)?;
                write!(f, "{} {} {} next {next}", m.profile, m.mode, m.detail)
            }
            Reply::Written(Ok(next), buffer) => write!(f, "at {next} {}", Hex(buffer.as_slice())),
            Reply::Written(Err(refusal), buffer) => {
                write!(f, "{refusal} {}", Hex(buffer.as_slice()))
            }
        }
    }
}
