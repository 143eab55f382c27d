// The kinds of streams; docs/ARCHITECTURE.md lists them.
use crate::rooms::{Question, Turn};
use crate::serving::Stream;
use crate::sums::Sum;
use crate::{rooms, serving};

#[derive(Clone, Copy)]
pub(crate) enum Kind {
    // The server, where it stays and by value.
    InPlace(Stream),
    ByValue(Stream),
    // A room.
    Turns(Turn),
    Questions(Question),
}

// A number that is no kind's.
#[derive(Clone, Copy)]
pub(crate) struct Unlisted;

impl TryFrom<u64> for Kind {
    type Error = Unlisted;

    fn try_from(number: u64) -> Result<Self, Unlisted> {
        match number {
            0..=9 => Ok(Kind::InPlace(Stream::try_from(number)?)),
            10..=19 => Ok(Kind::ByValue(Stream::try_from(number - 10)?)),
            20 => Ok(Kind::Turns(Turn::KeepAlive)),
            21 => Ok(Kind::Turns(Turn::Ask)),
            22 => Ok(Kind::Turns(Turn::Begin)),
            23 => Ok(Kind::Turns(Turn::Edit)),
            24 => Ok(Kind::Turns(Turn::Demand)),
            25 => Ok(Kind::Turns(Turn::Refused)),
            26 => Ok(Kind::Questions(Question::Phase)),
            27 => Ok(Kind::Questions(Question::MayUse)),
            _ => Err(Unlisted),
        }
    }
}

impl Kind {
    // What is not listed is answered as 25.
    pub(crate) fn of(number: u64) -> Self {
        Kind::try_from(number).unwrap_or(Kind::Turns(Turn::Refused))
    }

    pub(crate) fn sum(self, count: u64) -> Sum {
        match self {
            Kind::InPlace(stream) => serving::in_place(stream, count),
            Kind::ByValue(stream) => serving::by_value(stream, count),
            Kind::Turns(turn) => rooms::turns(turn, count),
            Kind::Questions(question) => rooms::questions(question, count),
        }
    }
}
