// The borders of the station: from a received message to an event, and from what it sends to its message.
ghost use Rattle.std.specs.Prelude.{◌≡◌};
ghost use Rattle.station.specs.Border.{said_meant, ack_as, event_of};
ghost use Rattle.requests.specs.Request.{message_of};

use crate::event::{Ack, Event, Request};
use modes::Mode;
use record::Message;

fn ack_of(m: Message) -> Option<Event>
    ensures { result ≡ ack_as m.detail m }
{
    let ack = match m.detail {
        Message::DONE => Ack::Done,
        Message::GRANTED => Ack::Granted(m.profile, Mode(m.mode)),
        Message::WAIT => Ack::Wait(m.profile),
        Message::IN_USE => Ack::InUse(m.profile),
        _ => return None,
    };
    Some(Event::Ack(m.station, m.number, ack))
}

// The event that a message is, or none where it is of the other side's kinds, which is the caller's to drop.
// Kept: a function and no TryFrom: a message and an event are both types of other crates, so the impl cannot stand here.
#[tactic(auto, unfolding(crate::specs::Border::event_of))]
pub fn event_of(m: Message) -> Option<Event>
    ensures { said_meant result ≡ said_meant (event_of m) }
{
    match m.kind {
        Message::ACK => ack_of(m),
        Message::NACK => Some(Event::Nack(m.station, m.number, m.detail)),
        Message::DEMAND => Some(Event::Demand(m.station, m.profile, Mode(m.mode))),
        _ => None,
    }
}

// The message of what station `own` sends under a number.
pub fn message_of(own: u8, number: u32, request: Request) -> Message
    ensures { result ≡ message_of own number request }
{
    requests::message_of(own, number, request)
}
