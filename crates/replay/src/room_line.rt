// The lines of a room.
ghost use Rattle.std.specs.Prelude.{◌<◌};
ghost use Rattle.timing.specs.Limits.{most_stations};

use crate::server_line::request;
use crate::words::Words;
use modes::Mode;
use station::event::{Ack, Event};
use timing::settings::Settings;

// The number of a room. Rooms count from 0.
#[derive(Clone, Copy)]
pub(crate) struct Room {
    pub(crate) number: u8,
    ghost within: { number < most_stations },
}

impl Room {
    fn new(number: u8) -> Option<Room> {
        if Settings::STATIONS <= usize::from(number) {
            return None;
        }
        Some(Room { number })
    }
}

// An event of the room, or a question to it.
#[derive(Clone, Copy)]
pub(crate) enum Turn {
    Event(Event),
    Phase,
    // Whether it may use a profile.
    Use(u8),
}

#[derive(Clone, Copy)]
pub(crate) struct RoomLine {
    pub(crate) room: Room,
    pub(crate) reading: u64,
    pub(crate) turn: Turn,
}

impl RoomLine {
    // After the word `room`.
    pub(crate) fn parse(words: &mut Words) -> Option<RoomLine> {
        Some(RoomLine {
            room: Room::new(words.number()?)?,
            reading: words.number()?,
            turn: Turn::parse(words)?,
        })
    }
}

impl Turn {
    // After the reading.
    fn parse(words: &mut Words) -> Option<Turn> {
        Some(match words.word()? {
            b"phase" => Turn::Phase,
            b"use" => Turn::Use(words.number()?),
            name => Turn::Event(event(name, words)?),
        })
    }
}

// By its name, with the words after it.
fn event(name: &[u8], words: &mut Words) -> Option<Event> {
    Some(match name {
        b"begin" => Event::Begin(words.number()?, Mode(words.number()?)),
        b"edit" => Event::Edit(words.number()?),
        b"end" => Event::End(words.number()?),
        b"write" => Event::WriteOut(words.number()?),
        b"restart" => Event::Restart,
        b"ack" => Event::Ack(words.number()?, words.number()?, ack(words)?),
        b"nack" => Event::Nack(words.number()?, words.number()?, words.number()?),
        b"demand" => Event::Demand(words.number()?, words.number()?, Mode(words.number()?)),
        _ => Event::Send(request(name, words)?),
    })
}

// After the message's number.
fn ack(words: &mut Words) -> Option<Ack> {
    Some(match words.word()? {
        b"done" => Ack::Done,
        b"granted" => Ack::Granted(words.number()?, Mode(words.number()?)),
        b"wait" => Ack::Wait(words.number()?),
        b"inuse" => Ack::InUse(words.number()?),
        _ => return None,
    })
}
