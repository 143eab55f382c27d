// Refusals 8 to 14 of each event, in rising order.
ghost use Rattle.std.specs.Prelude.{◌≡◌, cond, Ok, Err};
ghost use Rattle.refusals.specs.declared.Refusal.TheVariants.{Out};
ghost use Rattle.room.specs.Rules.{number_refusal, release_refusal, started_refusal, sending_refusal, hello_refusal, send_refusal, begin_refusal, edit_refusal, end_refusal, write_out_refusal, demand_refusal, fits_ask, fits, ack_profile, awaited, ack_forbids, nack_forbids, profile_for, event_forbids};

use crate::event::{Ack, Event, Request, Sent};
use holds::hold::Hold;
use holds::stage::Stage;
use modes::Mode;
use refusals::{Refusal, unless};
use timing::reading::Reading;

// No message has a number above this one.
pub const LAST_NUMBER: u32 = u32::MAX;

// What the rules look at.
#[derive(Clone, Copy)]
pub struct Seen {
    pub stage: Stage,
    // Of the profile that the event names.
    pub hold: Hold,
    pub waiting: Option<Sent>,
    pub lease: u64,
    pub now: u64,
    // The last number.
    pub last: u32,
}

// Whether an ACK answers an ask of `asked` on `profile` where `held` is held.
fn fits_ask(profile: u8, asked: Mode, held: Mode, ack: Ack) -> bool
    ensures { result ≡ fits_ask profile asked.0 held.0 ack }
{
    match ack {
        Ack::Done => false,
        Ack::Granted(named, mode) => named == profile && mode.covers(held) && mode.covers(asked),
        Ack::Wait(named) | Ack::InUse(named) => named == profile,
    }
}

#[tactic(auto, unfolding(crate::specs::Rules::fits))]
fn fits(request: Request, held: Mode, ack: Ack) -> bool
    ensures { result ≡ fits request held.0 ack }
{
    match request {
        Request::Ask(profile, asked) => fits_ask(profile, asked, held, ack),
        _ => matches!(ack, Ack::Done),
    }
}

// The profile that an ACK names, 0 where it names none.
// Kept: a number, as `profile_for` below.
fn ack_profile(ack: Ack) -> u8
    ensures { result ≡ ack_profile ack }
{
    match ack {
        Ack::Done => 0,
        Ack::Granted(profile, _) | Ack::Wait(profile) | Ack::InUse(profile) => profile,
    }
}

// The profile that an event names, 0 where it names none.
// Kept: a number and no Option, as `profile_of` of `requests`: what is held of that profile is looked at, named or not.
pub fn profile_for(event: Event) -> u8
    ensures { result ≡ profile_for event }
{
    match event {
        Event::Send(request) => requests::profile_of(request),
        Event::Begin(profile, _)
        | Event::Edit(profile)
        | Event::End(profile)
        | Event::WriteOut(profile)
        | Event::Demand(_, profile, _) => profile,
        Event::Ack(_, _, ack) => ack_profile(ack),
        Event::Restart | Event::Nack(_, _, _) => 0,
    }
}

impl Seen {
    // 13: the last number is used.
    fn check_number(self) -> Result<(), Refusal>
        ensures { result ≡ number_refusal self.last }
    {
        unless(self.last < LAST_NUMBER, Refusal::NumbersUsed)
    }

    // 12: a release needs no started operation and nothing unwritten.
    fn check_unused(self) -> Result<(), Refusal>
        ensures { result ≡ release_refusal self.hold }
    {
        unless(self.hold.started == 0, Refusal::StillUsed)?;
        unless(!self.hold.unwritten, Refusal::StillUsed)
    }

    // 11: no operation is started where one is needed.
    fn check_started(self) -> Result<(), Refusal>
        ensures { result ≡ started_refusal self.hold }
    {
        unless(0 < self.hold.started, Refusal::OperationCount)
    }

    // 8: the station is out.
    fn check_inside(self) -> Result<(), Refusal>
        ensures { result ≡ cond self.stage.out (Err Out) (Ok tt) }
    {
        unless(!self.stage.out, Refusal::Out)
    }

    // 8 and 9 of a demand, and of whatever else needs an open station in phase 1 or 2.
    #[tactic(auto, unfolding(crate::specs::Rules::demand_refusal))]
    fn check_early(self) -> Result<(), Refusal>
        ensures { result ≡ demand_refusal self.stage }
    {
        self.check_inside()?;
        unless(self.stage.early, Refusal::PhaseForbids)
    }

    // Of a message that needs one, and what `own` says besides.
    #[tactic(auto, unfolding(crate::specs::Rules::demand_refusal))]
    fn check_sending(self, own: Result<(), Refusal>) -> Result<(), Refusal>
        ensures { result ≡ sending_refusal self.stage own self.last }
    {
        self.check_early()?;
        own?;
        self.check_number()
    }

    fn check_hello(self) -> Result<(), Refusal>
        ensures { result ≡ hello_refusal self.stage self.last }
    {
        unless(self.stage.out, Refusal::PhaseForbids)?;
        self.check_number()
    }

    #[tactic(auto, unfolding(crate::specs::Rules::send_refusal))]
    fn check_send(self, request: Request) -> Result<(), Refusal>
        ensures { result ≡ send_refusal self.stage self.hold self.last request }
    {
        match request {
            Request::Hello => self.check_hello(),
            Request::KeepAlive | Request::Ask(_, _) => self.check_sending(Ok(())),
            Request::Release(_) => self.check_sending(self.check_unused()),
            Request::Keep(_) => self.check_sending(self.check_started()),
        }
    }

    #[tactic(auto, unfolding(crate::specs::Rules::demand_refusal, crate::specs::Rules::begin_refusal))]
    fn check_begin(self, mode: Mode) -> Result<(), Refusal>
        ensures { result ≡ begin_refusal self.stage self.hold mode.0 }
    {
        self.check_early()?;
        unless(self.hold.mode.covers(mode), Refusal::ModeForbids)?;
        unless(self.hold.started < Hold::MOST, Refusal::OperationCount)
    }

    #[tactic(auto, unfolding(crate::specs::Rules::edit_refusal))]
    fn check_edit(self) -> Result<(), Refusal>
        ensures { result ≡ edit_refusal self.stage self.hold }
    {
        self.check_inside()?;
        unless(self.stage.not_late, Refusal::PhaseForbids)?;
        unless(self.hold.mode.writes(), Refusal::ModeForbids)?;
        self.check_started()
    }

    #[tactic(auto, unfolding(crate::specs::Rules::end_refusal))]
    fn check_end(self) -> Result<(), Refusal>
        ensures { result ≡ end_refusal self.stage self.hold }
    {
        self.check_inside()?;
        self.check_started()
    }

    #[tactic(auto, unfolding(crate::specs::Rules::write_out_refusal))]
    fn check_write_out(self) -> Result<(), Refusal>
        ensures { result ≡ write_out_refusal self.stage self.hold }
    {
        self.check_inside()?;
        unless(self.hold.mode.writes(), Refusal::ModeForbids)
    }

    // The message that waits, where it has that number.
    fn awaited(self, number: u32) -> Result<Sent, Refusal>
        ensures { result ≡ awaited self.waiting self.last number }
    {
        match self.waiting {
            Some(sent) if number == self.last => Ok(sent),
            _ => Err(Refusal::NotAwaited),
        }
    }

    #[tactic(auto, unfolding(crate::specs::Rules::ack_forbids))]
    fn check_ack(self, number: u32, ack: Ack) -> Result<(), Refusal>
        ensures { result ≡ ack_forbids self.waiting self.lease self.now self.last number self.hold.mode.0 ack }
    {
        let sent = self.awaited(number)?;
        unless(fits(sent.request, self.hold.mode, ack), Refusal::NotAwaited)?;
        unless(
            !Reading::passed(sent.at, self.lease, self.now),
            Refusal::NotAwaited,
        )
    }

    #[tactic(auto, unfolding(crate::specs::Rules::nack_forbids))]
    fn check_nack(self, number: u32) -> Result<(), Refusal>
        ensures { result ≡ nack_forbids self.waiting self.last number }
    {
        self.awaited(number)?;
        Ok(())
    }

    pub fn forbids(self, event: Event) -> Result<(), Refusal>
        ensures { result ≡ event_forbids self.stage self.hold self.waiting self.lease self.now self.last event }
    {
        match event {
            Event::Send(request) => self.check_send(request),
            Event::Begin(_, mode) => self.check_begin(mode),
            Event::Edit(_) => self.check_edit(),
            Event::End(_) => self.check_end(),
            Event::WriteOut(_) => self.check_write_out(),
            Event::Restart => Ok(()),
            Event::Ack(_, number, ack) => self.check_ack(number, ack),
            Event::Nack(_, number, _) => self.check_nack(number),
            Event::Demand(_, _, _) => self.check_early(),
        }
    }
}
