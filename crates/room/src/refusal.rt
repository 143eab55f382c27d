// Refusals 1 to 6, the lowest that applies. They change nothing.
ghost use Rattle.std.specs.Prelude.{◌≡◌};
ghost use Rattle.requests.specs.Request.{pair_refusal};
ghost use Rattle.room.specs.Refusal.{is_wanted, ack_refusal, named_refusal, station_of, own_refusal, refusal, use_refusal, phase_refusal};

use crate::event::{Ack, Event};
use modes::Mode;
use refusals::Refusal;
use timing::reading::Reading;
use timing::settings::Settings;

// A station that is asked, by its settings and number, with the last reading and the one at which it is asked.
#[derive(Clone, Copy)]
pub struct Asking {
    pub settings: Settings,
    pub number: u8,
    pub last: u64,
    pub reading: u64,
}

// A demand is never in mode M.
#[tactic(auto, unfolding(modes::specs::Modes::is_mode))]
fn check_demand(profiles: u64, profile: u8, mode: Mode) -> Result<(), Refusal>
    ensures { result ≡ pair_refusal profiles profile (is_wanted mode.0) }
{
    requests::check_pair(profiles, profile, mode)?;
    refusals::unless(mode != Mode::M, Refusal::Mode)
}

fn check_ack(profiles: u64, ack: Ack) -> Result<(), Refusal>
    ensures { result ≡ ack_refusal profiles ack }
{
    match ack {
        Ack::Done => Ok(()),
        Ack::Granted(profile, mode) => requests::check_pair(profiles, profile, mode),
        Ack::Wait(profile) | Ack::InUse(profile) => requests::check_profile(profiles, profile),
    }
}

// 3 and 4 of what the event names.
fn check_named(profiles: u64, event: Event) -> Result<(), Refusal>
    ensures { result ≡ named_refusal profiles event }
{
    match event {
        Event::Send(request) => requests::check_request(profiles, request),
        Event::Begin(profile, mode) => requests::check_pair(profiles, profile, mode),
        Event::Edit(profile) | Event::End(profile) | Event::WriteOut(profile) => {
            requests::check_profile(profiles, profile)
        }
        Event::Restart | Event::Nack(_, _, _) => Ok(()),
        Event::Ack(_, _, ack) => check_ack(profiles, ack),
        Event::Demand(_, profile, mode) => check_demand(profiles, profile, mode),
    }
}

// The station that a message is for; an event of the room's own is for it.
fn station_of(number: u8, event: Event) -> u8
    ensures { result ≡ station_of number event }
{
    match event {
        Event::Ack(station, _, _) | Event::Nack(station, _, _) | Event::Demand(station, _, _) => {
            station
        }
        _ => number,
    }
}

// 1 and 2: the settings, or the station's own number, out of range.
pub fn check_own(settings: Settings, number: u8) -> Result<(), Refusal>
    ensures { result ≡ own_refusal settings number }
{
    settings.check()?;
    refusals::unless(u64::from(number) < settings.stations(), Refusal::Station)
}

impl Asking {
    // Of an event.
    #[tactic(auto, unfolding(crate::specs::Refusal::refusal))]
    pub fn check(self, event: Event) -> Result<(), Refusal>
        ensures { result ≡ refusal self.settings self.number self.last self.reading event }
    {
        check_own(self.settings, self.number)?;
        if station_of(self.number, event) != self.number {
            return Err(Refusal::Station);
        }
        check_named(self.settings.profiles(), event)?;
        Reading::check(self.last, self.reading)
    }

    // Of a question about a profile.
    #[tactic(auto, unfolding(crate::specs::Refusal::use_refusal))]
    pub fn check_use(self, profile: u8) -> Result<(), Refusal>
        ensures { result ≡ use_refusal self.settings self.number self.last self.reading profile }
    {
        check_own(self.settings, self.number)?;
        requests::check_profile(self.settings.profiles(), profile)?;
        Reading::check(self.last, self.reading)
    }

    // Of the question about the phase.
    #[tactic(auto, unfolding(crate::specs::Refusal::phase_refusal))]
    pub fn check_phase(self) -> Result<(), Refusal>
        ensures { result ≡ phase_refusal self.settings self.number self.last self.reading }
    {
        check_own(self.settings, self.number)?;
        Reading::check(self.last, self.reading)
    }
}
