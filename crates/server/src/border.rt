// The borders of the server: from a received message to an event, and from an answer to the messages that it sends.
ghost use Rattle.std.specs.Prelude.{◌≡◌, [], ◌∷◌};
ghost use Rattle.record.specs.Message.{message};
ghost use Rattle.writer.specs.Run.{run_answer, run_content};
ghost use Rattle.timing.specs.Limits.{most_stations};
ghost use Rattle.server.specs.Border.{said_meant, event_of, demands_from, sent_for};
ghost use Rattle.server.specs.Run.{blank, run_of, pushed};

use crate::event::{Answer, Event};
use record::Message;
use writer::{Run, Written};

// The event that a message is, or none where it is of the other side's kinds: then it is the caller's to drop.
// Kept: a function and no TryFrom: a message and an event are both types of other crates, so the impl cannot stand here.
#[tactic(auto, using(requests::proofs::Back::asked_told), unfolding(crate::specs::Border::event_of))]
pub fn event_of(m: Message) -> Option<Event>
    ensures { said_meant result ≡ said_meant (event_of m) }
{
    let request = requests::request_of(m)?;
    Some(Event::Message(m.station, m.number, request))
}

// What stands in a run beyond its messages.
// Kept: no Default, since it is no message that anything should begin with.
fn none() -> Message
    ensures { result ≡ blank }
{
    Message {
        kind: 0,
        station: 0,
        number: 0,
        profile: 0,
        mode: 0,
        detail: 0,
    }
}

#[tactic(auto, unfolding(crate::specs::Run::run_of))]
fn empty() -> Run
    ensures { result ≡ run_of [] }
{
    Run {
        count: 0,
        messages: [none(); Run::MOST],
    }
}

// One message more at the end, while there is room.
fn push(run: &mut Run, m: Message)
    ensures { run.new ≡ pushed m run.old }
{
    if run.count < Run::MOST {
        run.messages[run.count] = m;
        run.count += 1;
    }
}

#[tactic(auto, unfolding(crate::specs::Run::run_of))]
fn one(m: Message) -> Run
    ensures { result ≡ run_of (m ∷ []) }
{
    let mut run = empty();
    push(&mut run, m);
    run
}

// A demand for the wanted mode to each station of a set, in station order, after the ACK.
fn with_demands(first: Message, stations: u64, profile: u8, wanted: u8) -> Run
    ensures { result ≡ run_of (first ∷ demands_from most_stations 0 stations profile wanted) }
{
    let mut run = one(first);
    // Kept: bit by bit, since the walks of `masks` go over a list, and here there is only the set.
    let mut rest = stations;
    for station in 0..Message::STATIONS {
        if rest % 2 == 1 {
            push(
                &mut run,
                Message {
                    kind: Message::DEMAND,
                    station,
                    number: Message::NO_NUMBER,
                    profile,
                    mode: wanted,
                    detail: Message::NO_DETAIL,
                },
            );
        }
        rest /= 2;
    }
    run
}

// Kept: beside `nack`, since each is one message of the record, and they share no more than the station and the number.
fn ack(station: u8, number: u32, profile: u8, mode: u8, detail: u8) -> Message
    ensures { result ≡ message 6 station number profile mode detail }
{
    Message {
        kind: Message::ACK,
        station,
        number,
        profile,
        mode,
        detail,
    }
}

fn nack(station: u8, number: u32, detail: u8) -> Message
    ensures { result ≡ message 7 station number 255 0 detail }
{
    Message {
        kind: Message::NACK,
        station,
        number,
        profile: Message::NO_PROFILE,
        mode: Message::NO_MODE,
        detail,
    }
}

// The messages that answer message `number` of a station: the ACK or NACK first, then the demands in station order.
// Kept: station and number apart, as the message that is answered has them.
#[tactic(auto, unfolding(crate::specs::Border::sent_for))]
pub fn messages(answer: Answer, station: u8, number: u32) -> Run
    ensures { result ≡ run_of (sent_for station number answer) }
{
    match answer {
        Answer::Done => one(ack(
            station,
            number,
            Message::NO_PROFILE,
            Message::NO_MODE,
            Message::DONE,
        )),
        Answer::Granted(profile, mode) => one(ack(
            station,
            number,
            profile,
            mode.0,
            Message::GRANTED,
        )),
        Answer::Wait(profile, wanted, holders, _) => with_demands(
            ack(station, number, profile, Message::NO_MODE, Message::WAIT),
            holders,
            profile,
            wanted.0,
        ),
        Answer::InUse(profile) => one(ack(
            station,
            number,
            profile,
            Message::NO_MODE,
            Message::IN_USE,
        )),
        Answer::Nack(detail) => one(nack(station, number, detail)),
        Answer::Ticked(_, _) | Answer::Refused(_) => empty(),
    }
}

// The same, written into a buffer one record after another.
#[tactic(auto, using(crate::proofs::Runs::run_messages))]
pub fn put_answer(buf: &mut [u8], at: usize, answer: Answer, station: u8, number: u32) -> Written
    ensures { (result ≡ run_answer 0 (sent_for station number answer) at buf.old) × (buf.new ≡ run_content (sent_for station number answer) at buf.old) }
{
    writer::put_run(buf, at, messages(answer, station, number))
}
