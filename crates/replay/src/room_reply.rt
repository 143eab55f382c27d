// What a room answers.
use station::event::{Advice, Answer, Request};
use std::fmt;
use timing::settings::Phase;

#[derive(Clone, Copy)]
pub(crate) enum RoomReply {
    // To an event, with the lost profiles as a mask and their count.
    Event(EventReply, u64, u32),
    // None where it is out.
    Phase(Option<Phase>),
    // Whether it may.
    Use(bool),
}

impl fmt::Display for RoomReply {
    fn fmt<W: fmt::Write>(&self, f: &mut fmt::Formatter<W>) -> fmt::Result {
        match *self {
            RoomReply::Event(reply, lost, count) => write!(f, "{reply} lost {lost} count {count}"),
            RoomReply::Phase(Some(phase)) => write!(f, "phase {}", phase.number()),
            RoomReply::Phase(None) => f.write_str("phase out"),
            RoomReply::Use(true) => f.write_str("use yes"),
            RoomReply::Use(false) => f.write_str("use no"),
        }
    }
}

#[derive(Clone, Copy)]
pub(crate) struct EventReply(pub(crate) Answer);

impl fmt::Display for EventReply {
    fn fmt<W: fmt::Write>(&self, f: &mut fmt::Formatter<W>) -> fmt::Result {
        match self.0 {
            Answer::Done => f.write_str("done"),
            Answer::Sent(number, request) => write!(f, "sent {}", Sent(number, request)),
            Answer::Advice(Advice::Keep) => f.write_str("advice keep"),
            Answer::Advice(Advice::WriteOut) => f.write_str("advice write"),
            Answer::Advice(Advice::Release) => f.write_str("advice release"),
            Answer::Refused(refusal) => refusal.fmt(f),
        }
    }
}

// A message to send, with its number.
#[derive(Clone, Copy)]
struct Sent(u32, Request);

impl fmt::Display for Sent {
    fn fmt<W: fmt::Write>(&self, f: &mut fmt::Formatter<W>) -> fmt::Result {
        let number = self.0;
        match self.1 {
            Request::Hello => write!(f, "hello {number}"),
            Request::KeepAlive => write!(f, "keepalive {number}"),
            Request::Ask(profile, mode) => write!(f, "ask {number} {profile} {}", mode.0),
            Request::Release(profile) => write!(f, "release {number} {profile}"),
            Request::Keep(profile) => write!(f, "keep {number} {profile}"),
        }
    }
}
