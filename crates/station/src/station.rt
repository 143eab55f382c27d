// A station: its settings and number, where it stands, and what it holds.
ghost use Rattle.std.specs.Prelude.{◌≡◌, ◌&&◌, ◌||◌, not};
ghost use Rattle.masks.specs.Mask.{mask};
ghost use Rattle.timing.specs.Reading.{passed};
ghost use Rattle.holds.specs.Stage.{is_out};
ghost use Rattle.station.specs.Station.{is_restart, lost_if, made, refusal_of, step, phase_asked, may_use};
ghost use Rattle.station.specs.Parts.{lease_if, asking_of, parts_with, joined};
ghost use Rattle.station.specs.Said.{told, said_phase, said_use};

use crate::event::{Answer, Event, Refusal, Sent};
use crate::parts::Parts;
use holds::hold::{Hold, Holds};
use holds::stage::Standing;
use holds::{hold, stage};
use room::refusal::Asking;
use room::{refusal, rules};
use timing::reading::Reading;
use timing::settings::{Phase, Settings};

#[derive(Clone, Copy)]
pub struct Station {
    settings: Settings,
    number: u8,
    standing: Standing,
    // The lease start; 0 where the station is out.
    // Kept: a number and no Option, as `usable` and the law `started_before` speak of it.
    start: u64,
    last: u32,
    reading: u64,
    waiting: Option<Sent>,
    holds: Holds,
}

// A new station, and what is said against its settings or its number.
// Kept: a type of its own beside the server's, since callers read `made.station`.
#[derive(Clone, Copy)]
pub struct Made {
    pub station: Station,
    pub checked: Result<(), Refusal>,
}

// The station afterwards, the answer, and the lost profiles as a mask with its count of ones.
#[derive(Clone, Copy)]
pub struct Stepped {
    pub station: Station,
    pub answer: Answer,
    pub lost: u64,
    pub count: u32,
}

// Whether all but the numbers and the reading goes before the event is judged. A restart leaves no more than the end of a lease does.
fn clears(over: bool, event: Event) -> bool
    ensures { result ≡ (over || is_restart event) }
{
    over || matches!(event, Event::Restart)
}

// The profiles that an event loses; `over` is whether the lease ends at it.
fn lost_at(over: bool, event: Event, holds: Holds) -> u64
    ensures { result ≡ mask (lost_if (over && not (is_restart event)) holds) }
{
    if over && !matches!(event, Event::Restart) {
        hold::unwritten_in(holds)
    } else {
        0
    }
}

impl Station {
    #[tactic(auto, unfolding(crate::specs::Station::new_station))]
    pub fn new(settings: Settings, number: u8) -> Made
        ensures { result ≡ made settings number }
    {
        Made {
            station: Station {
                settings,
                number,
                standing: Standing::Out,
                start: 0,
                last: 0,
                reading: 0,
                waiting: None,
                holds: hold::no_holds(),
            },
            checked: refusal::check_own(settings, number),
        }
    }

    // What 1 to 6 are asked of.
    fn asking(&self, reading: u64) -> Asking
        ensures { result ≡ asking_of self.now reading }
    {
        Asking {
            settings: self.settings,
            number: self.number,
            last: self.reading,
            reading,
        }
    }

    // The lease, at an event that 1 to 6 do not refuse.
    fn lease_for(&self, reading: u64, event: Event) -> Result<u64, Refusal>
        ensures { result ≡ lease_if (refusal_of self.now reading event) self.now.settings }
    {
        self.asking(reading).check(event)?;
        self.settings.try_lease()
    }

    // Whether the lease has run its length.
    fn is_over(&self, lease: u64, reading: u64) -> bool
        ensures { result ≡ (not (is_out self.now.standing) && passed self.now.start lease reading) }
    {
        self.standing != Standing::Out && Reading::passed(self.start, lease, reading)
    }

    // With the hold that an event names.
    fn parts(&self, hold: Hold) -> Parts
        ensures { result ≡ parts_with self.now hold }
    {
        Parts {
            standing: self.standing,
            start: self.start,
            last: self.last,
            waiting: self.waiting,
            hold,
        }
    }

    fn joined(&self, reading: u64, parts: Parts, holds: Holds) -> Station
        ensures { result ≡ joined self.now.settings self.now.number reading parts holds }
    {
        Station {
            settings: self.settings,
            number: self.number,
            standing: parts.standing,
            start: parts.start,
            last: parts.last,
            reading,
            waiting: parts.waiting,
            holds,
        }
    }

    // Any event at any reading. The station is taken apart and put together once, since each function that holds it whole copies it.
    pub fn step(self, reading: u64, event: Event) -> Stepped
        ensures { told result ≡ told (step self reading event) }
    {
        let lease = match self.lease_for(reading, event) {
            Ok(lease) => lease,
            Err(refusal) => {
                return Stepped {
                    station: self,
                    answer: Answer::Refused(refusal),
                    lost: 0,
                    count: 0,
                };
            }
        };
        let mut holds = self.holds;
        let at = rules::profile_for(event) as usize;
        let found = self.parts(holds[at]);
        let over = self.is_over(lease, reading);
        let cleared = clears(over, event);
        let mut lost: u64 = 0;
        if cleared {
            lost = lost_at(over, event, holds);
            holds = hold::no_holds();
        }
        let arrived = found.arrived(cleared);
        let outcome = arrived.judged(self.settings, lease, reading, event);
        holds[at] = outcome.parts.hold;
        Stepped {
            station: self.joined(reading, outcome.parts, holds),
            answer: outcome.answer,
            lost,
            count: masks::count(lost),
        }
    }

    // Which phase, or none where the station is out.
    #[tactic(auto, using(crate::proofs::Ways::phase_back), unfolding(crate::specs::Station::phase_asked))]
    pub fn phase(self, reading: u64) -> Result<Option<Phase>, Refusal>
        ensures { said_phase result ≡ said_phase (phase_asked self reading) }
    {
        self.asking(reading).check_phase()?;
        Ok(stage::phase_at(self.settings, self.standing, self.start, reading))
    }

    #[tactic(auto, unfolding(crate::specs::Station::may_use))]
    pub fn may_use(self, reading: u64, profile: u8) -> Result<bool, Refusal>
        ensures { said_use result ≡ said_use (may_use self reading profile) }
    {
        self.asking(reading).check_use(profile)?;
        let held = hold::hold_at(self.holds, profile).mode;
        Ok(held.is_mode() && !Reading::passed(self.start, self.settings.lease(), reading))
    }
}
