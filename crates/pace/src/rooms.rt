// Streams for a room, with an open lease and X on profile 0.
use crate::ground;
use crate::sums::Sum;
use modes::Mode;
use refusals::Refusal;
use station::event::{Ack, Advice, Answer, Event, Request};
use station::station::Station;
use timing::settings::Phase;

// Each of the first four is two events in turn.
#[derive(Clone, Copy)]
pub(crate) enum Turn {
    KeepAlive,
    Ask,
    Begin,
    Edit,
    Demand,
    // Refused by 3.
    Refused,
}

impl Turn {
    fn event(self, n: u64) -> Event {
        let first = n % 2 == 0;
        match self {
            Turn::KeepAlive if first => Event::Send(Request::KeepAlive),
            Turn::KeepAlive => Event::Ack(0, number(n), Ack::Done),
            Turn::Ask if first => Event::Send(Request::Ask(0, Mode::X)),
            Turn::Ask => Event::Ack(0, number(n), Ack::Granted(0, Mode::X)),
            Turn::Begin if first => Event::Begin(0, Mode::X),
            Turn::Begin => Event::End(0),
            Turn::Edit if first => Event::Edit(0),
            Turn::Edit => Event::WriteOut(0),
            Turn::Demand => Event::Demand(0, 0, Mode::X),
            Turn::Refused => Event::Edit(64),
        }
    }
}

// The two questions, at readings over the whole lease.
#[derive(Clone, Copy)]
pub(crate) enum Question {
    Phase,
    MayUse,
}

impl Question {
    fn value(self, room: Station, reading: u64) -> u64 {
        match self {
            Question::Phase => phase_value(room.phase(reading)),
            Question::MayUse => use_value(room.may_use(reading, 0)),
        }
    }
}

fn leased() -> Station {
    let events = [
        Event::Send(Request::Hello),
        Event::Ack(0, 1, Ack::Done),
        Event::Send(Request::Ask(0, Mode::X)),
        Event::Ack(0, 2, Ack::Granted(0, Mode::X)),
        Event::Begin(0, Mode::X),
    ];
    let mut room = Station::new(ground::settings(), 0).station;
    for event in events {
        room = room.step(100, event).station;
    }
    room
}

// The number of the message that an answer is to: two are used.
fn number(n: u64) -> u32 {
    ground::number(n / 2 + 3)
}

fn answer_value(answer: Answer) -> u64 {
    match answer {
        Answer::Sent(number, _) => u64::from(number) % 65_536,
        Answer::Done => 1,
        Answer::Advice(Advice::Keep) => 2,
        Answer::Advice(Advice::WriteOut) => 3,
        Answer::Advice(Advice::Release) => 4,
        Answer::Refused(refusal) => ground::refused(refusal),
    }
}

fn phase_value(answer: Result<Option<Phase>, Refusal>) -> u64 {
    match answer {
        Ok(Some(phase)) => u64::from(phase.number()),
        Ok(None) => 5,
        Err(refusal) => ground::refused(refusal),
    }
}

fn use_value(answer: Result<bool, Refusal>) -> u64 {
    match answer {
        Ok(true) => 1,
        Ok(false) => 2,
        Err(refusal) => ground::refused(refusal),
    }
}

// Kept: a loop of its own. Through `Sum::of` the place for a step's result is cleared before each event, and a refusal takes 44 ns and no
// longer 37.
pub(crate) fn turns(turn: Turn, count: u64) -> Sum {
    let mut room = leased();
    let mut sum = Sum::new();
    for n in 0..count {
        let after = room.step(100, turn.event(n));
        sum = sum.plus(answer_value(after.answer));
        room = after.station;
    }
    sum
}

pub(crate) fn questions(question: Question, count: u64) -> Sum {
    let room = leased();
    Sum::of(count, |n| question.value(room, 100 + n % 10_000))
}
