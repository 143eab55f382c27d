// Streams for the server: in place, and by value.
use crate::ground;
use crate::kind::Unlisted;
use crate::sums::Sum;
use modes::Mode;
use server::event::{Answer, Event, Request};
use server::server::{Server, step_in};

#[derive(Clone, Copy, PartialEq, Eq)]
pub(crate) enum Stream {
    Tick,
    KeepAlive,
    Hello,
    // An ask that is granted, and one that all others stand in the way of.
    Ask,
    Wait,
    Release,
    Keep,
    // Refused by 3, before anything is looked at, and by 7.
    Refused,
    Stale,
    // A tick with a demanded mark of every station on every profile.
    MarkedTick,
}

impl TryFrom<u64> for Stream {
    type Error = Unlisted;

    fn try_from(kind: u64) -> Result<Self, Unlisted> {
        match kind {
            0 => Ok(Stream::Tick),
            1 => Ok(Stream::KeepAlive),
            2 => Ok(Stream::Hello),
            3 => Ok(Stream::Ask),
            4 => Ok(Stream::Wait),
            5 => Ok(Stream::Release),
            6 => Ok(Stream::Keep),
            7 => Ok(Stream::Refused),
            8 => Ok(Stream::Stale),
            9 => Ok(Stream::MarkedTick),
            _ => Err(Unlisted),
        }
    }
}

impl Stream {
    fn event(self, n: u64) -> Event {
        let profile = (n / 16 % 64) as u8;
        match self {
            Stream::Tick | Stream::MarkedTick => Event::Tick,
            Stream::KeepAlive => message(n, Request::KeepAlive),
            Stream::Hello => hello(n),
            Stream::Ask => message(n, Request::Ask(profile, Mode::R)),
            Stream::Wait => message(n, Request::Ask(profile, Mode::X)),
            Stream::Release => message(n, Request::Release(profile)),
            Stream::Keep => message(n, Request::Keep(profile)),
            Stream::Refused => message(n, Request::Ask(64, Mode::R)),
            Stream::Stale => Event::Message((n % 16) as u8, 0, Request::KeepAlive),
        }
    }

    // Behind what makes the server ready. Far beyond any count that can be waited for, the stream begins again.
    fn streamed(self, n: u64) -> Event {
        self.event(n % 1_000_000_000_000_000 + START)
    }
}

// Stations and numbers in turn: each number is above the station's last one.
fn message(n: u64, request: Request) -> Event {
    Event::Message((n % 16) as u8, ground::number(n / 16 + 1), request)
}

// Half of the stations say hello again and again, while the others hold what they hold.
fn hello(n: u64) -> Event {
    Event::Message((n % 8) as u8, ground::number(n / 8 + 1), Request::Hello)
}

// A tick of the clock for so many events.
fn reading_of(n: u64) -> u64 {
    n / 65_536
}

fn value_of(answer: Answer) -> u64 {
    match answer {
        Answer::Done => 1,
        Answer::Granted(_, mode) => 10 + u64::from(mode.0),
        Answer::Wait(_, _, mask, count) => mask % 65_536 + u64::from(count),
        Answer::InUse(_) => 2,
        Answer::Nack(detail) => 3 + u64::from(detail),
        Answer::Ticked(freed, started) => 5 + freed % 65_536 + started % 65_536,
        Answer::Refused(refusal) => ground::refused(refusal),
    }
}

// Where each station has said hello, where each holds R everywhere, and where each has been in another's way there.
const GREETED: u64 = 16;

const HOLDING: u64 = 1040;

const MARKED: u64 = 3088;

// Where the stream starts: behind them.
const START: u64 = 4096;

// What makes a server ready: each station says hello, and asks for R and then for X on every profile.
fn readying(n: u64) -> Event {
    if n < GREETED {
        return message(n, Request::Hello);
    }
    if n < HOLDING {
        return Stream::Ask.event(n);
    }
    Stream::Wait.event(n)
}

// All stations live, and each holding R on every profile. Without the asks for X nobody is marked.
fn ready(stream: Stream) -> Server {
    let end = if stream == Stream::MarkedTick {
        MARKED
    } else {
        HOLDING
    };
    let mut server = Server::new(ground::settings()).server;
    for n in 0..end {
        step_in(&mut server, 0, readying(n));
    }
    server
}

// Over a server that stays where it is.
pub(crate) fn in_place(stream: Stream, count: u64) -> Sum {
    let mut server = ready(stream);
    Sum::of(count, |n| {
        value_of(step_in(&mut server, reading_of(n), stream.streamed(n)))
    })
}

pub(crate) fn by_value(stream: Stream, count: u64) -> Sum {
    let mut server = ready(stream);
    Sum::of(count, |n| {
        let after = server.step(reading_of(n), stream.streamed(n));
        server = after.server;
        value_of(after.answer)
    })
}
