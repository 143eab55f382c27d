// What an event that nothing forbids does to each part of a station.
ghost use Rattle.std.specs.Prelude.{◌≡◌, true};
ghost use Rattle.station.specs.Effect.{standing_after, nacked, sent_at, start_after, last_after, waiting_after, advised, number_free};
ghost use Rattle.station.specs.Parts.{sent_change, acked_change, hold_change, hold_free, answer_on};

use crate::event::{Ack, Advice, Answer, Event, Request, Sent};
use holds::hold::Hold;
use holds::stage::Standing;
use modes::Mode;

pub(crate) fn standing_after(standing: Standing, event: Event) -> Standing
    ensures { result ≡ standing_after standing event }
{
    match event {
        Event::Restart => Standing::Out,
        Event::Ack(_, _, _) => Standing::Open,
        Event::Nack(_, _, _) => nacked(standing),
        _ => standing,
    }
}

fn nacked(standing: Standing) -> Standing
    ensures { result ≡ nacked standing }
{
    match standing {
        Standing::Out => Standing::Out,
        Standing::Open | Standing::Closing => Standing::Closing,
    }
}

// When the waiting message was sent; 0 where none waits.
// Kept: a number, since an ACK, for which alone it counts, is not allowed where none waits.
pub(crate) fn sent_at(waiting: Option<Sent>) -> u64
    ensures { result ≡ sent_at waiting }
{
    waiting.map_or(0, |sent| sent.at)
}

// `sent` is when the waiting message was.
pub(crate) fn start_after(start: u64, sent: u64, event: Event) -> u64
    ensures { result ≡ start_after start sent event }
{
    match event {
        Event::Restart => 0,
        Event::Ack(_, _, _) => sent,
        _ => start,
    }
}

pub(crate) fn last_after(last: u32, event: Event) -> u32
    requires { number_free last event ≡ true }
    ensures { result ≡ last_after last event }
{
    match event {
        Event::Send(_) => last + 1,
        _ => last,
    }
}

pub(crate) fn waiting_after(waiting: Option<Sent>, reading: u64, event: Event) -> Option<Sent>
    ensures { result ≡ waiting_after waiting reading event }
{
    match event {
        Event::Send(request) => Some(Sent {
            request,
            at: reading,
        }),
        Event::Restart | Event::Ack(_, _, _) | Event::Nack(_, _, _) => None,
        _ => waiting,
    }
}

// Release drops the mode at sending.
fn hold_sent(hold: Hold, request: Request) -> Hold
    ensures { result ≡ sent_change request hold }
{
    match request {
        Request::Release(_) => hold.with_mode(Mode::NONE),
        _ => hold,
    }
}

// Granted sets the mode.
fn hold_acked(hold: Hold, ack: Ack) -> Hold
    ensures { result ≡ acked_change ack hold }
{
    match ack {
        Ack::Granted(_, mode) => hold.with_mode(mode),
        _ => hold,
    }
}

// `hold` is of the profile that the event names.
pub(crate) fn hold_after(hold: Hold, event: Event) -> Hold
    requires { hold_free hold event ≡ true }
    ensures { result ≡ hold_change event hold }
{
    match event {
        Event::Send(request) => hold_sent(hold, request),
        Event::Begin(_, _) => hold.with_started(hold.started + 1),
        Event::Edit(_) => hold.with_unwritten(true),
        Event::End(_) => hold.with_started(hold.started - 1),
        Event::WriteOut(_) => hold.with_unwritten(false),
        Event::Restart => Hold::empty(),
        Event::Ack(_, _, ack) => hold_acked(hold, ack),
        Event::Nack(_, _, _) | Event::Demand(_, _, _) => hold,
    }
}

// Keep while operations are started, else write out first if unwritten, else release.
#[tactic(auto, unfolding(crate::specs::Effect::advised))]
fn advice(hold: Hold) -> Advice
    ensures { result ≡ advised hold }
{
    if 0 < hold.started {
        Advice::Keep
    } else if hold.unwritten {
        Advice::WriteOut
    } else {
        Advice::Release
    }
}

// `number` is the last one after the event, `hold` of the profile that it names.
pub(crate) fn answer_to(number: u32, hold: Hold, event: Event) -> Answer
    ensures { result ≡ answer_on number hold event }
{
    match event {
        Event::Send(request) => Answer::Sent(number, request),
        Event::Demand(_, _, _) => Answer::Advice(advice(hold)),
        _ => Answer::Done,
    }
}
