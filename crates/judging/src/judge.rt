// What an event answers, and what is to be stored then: judged on the one station and the one profile that it names.
ghost use Rattle.std.specs.Prelude.{◌≡◌, ◌<◌, IfOk};
ghost use Rattle.timing.specs.Limits.{most_stations, most_profiles};
ghost use Rattle.judging.specs.Judge.{route_of, needed_for, heard_for, judged_for};

use crate::event::{Answer, Event};
use crate::refusal;
use hearing::Seen;
use members::member::Member;
use profiles::profile::Profile;
use refusals::Refusal;
use requests::Request;
use timing::settings::Settings;

// What an event is about that nothing refuses: its station and its profile, the first where it names none.
// Kept: the first and no Option, as `route_of` has it: where none is named nothing is looked at there but a member.
// Kept: no ghost field that says they are in the arrays, since `judge` takes any route; `routed` says it of its own.
#[derive(Clone, Copy, Debug, PartialEq, Eq)]
pub struct Route {
    pub station: usize,
    pub place: usize,
}

// What has to be looked at to judge it, besides its station.
#[derive(Clone, Copy, Debug, PartialEq, Eq)]
pub enum Needs {
    Nothing,
    Profile,
    ProfileAndLive,
}

// What was looked at: the station, the profile if it was needed, and the set of the live stations, nobody where it was not.
// Kept: the set of nobody and no Option, since only an ask reads it, and for an ask it is always looked at.
#[derive(Clone, Copy)]
pub struct Looked {
    pub route: Route,
    pub member: Member,
    pub profile: Option<Profile>,
    pub live: u64,
}

// What a message leaves, and what it answers.
#[derive(Clone, Copy)]
pub struct After {
    pub route: Route,
    pub member: Member,
    // None where the profile stays as it is.
    pub profile: Option<Profile>,
    // The stations whose modes and marks go on every profile.
    pub gone: u64,
    pub answer: Answer,
}

#[derive(Clone, Copy)]
pub enum Outcome {
    // Refusals 1 to 6 change nothing.
    Refused(Refusal),
    // What a tick answers is known once it is done.
    Ticks,
    Leaves(After),
}

#[derive(Clone, Copy)]
pub struct Judged {
    // The server's reading afterwards.
    pub reading: u64,
    pub outcome: Outcome,
}

#[tactic(auto, using(crate::proofs::Refusals::in_arrays), unfolding(crate::specs::Judge::route_of))]
pub fn routed(settings: Settings, last: u64, reading: u64, event: Event) -> Result<Route, Refusal>
    ensures { (result ≡ route_of settings last reading event) × IfOk result (λ r. (r.station < most_stations) × (r.place < most_profiles)) }
{
    refusal::check(settings, last, reading, event)?;
    Ok(match event {
        Event::Message(station, _, request) => Route {
            station: station as usize,
            place: requests::profile_of(request) as usize,
        },
        Event::Tick => Route {
            station: 0,
            place: 0,
        },
    })
}

// A tick needs nothing; of the messages only one about a profile needs that profile.
#[tactic(auto, unfolding(crate::specs::Judge::needed_for))]
pub fn needed(member: Member, event: Event) -> Needs
    ensures { result ≡ needed_for member event }
{
    match event {
        Event::Message(_, number, request) => {
            if !hearing::looks(member, number, request) {
                Needs::Nothing
            } else if hearing::asks(request) {
                Needs::ProfileAndLive
            } else {
                Needs::Profile
            }
        }
        Event::Tick => Needs::Nothing,
    }
}

impl Looked {
    // A message that looks at no profile is judged on an empty one.
    #[tactic(auto, using(crate::proofs::Ways::message_heard))]
    fn hear(self, reading: u64, number: u32, request: Request) -> After
        ensures { result ≡ heard_for self reading number request }
    {
        let Looked {
            route,
            member,
            profile,
            live,
        } = self;
        let seen = Seen {
            me: route.station,
            member,
            profile: profile.unwrap_or_else(Profile::empty),
            live,
            reading,
        };
        let heard = seen.hear(number, request);
        After {
            route,
            member: heard.member,
            profile: profile.and(Some(heard.profile)),
            gone: hearing::gone(heard.greeted, route.station),
            answer: heard.answer,
        }
    }
}

// `last` is the server's reading before. What was looked at, or what refuses the event, is taken as the caller says: the server
// looks it up.
#[tactic(auto, unfolding(crate::specs::Judge::judged_for))]
pub fn judge(looked: Result<Looked, Refusal>, last: u64, reading: u64, event: Event) -> Judged
    ensures { result ≡ judged_for looked last reading event }
{
    let looked = match looked {
        Ok(looked) => looked,
        Err(refusal) => {
            return Judged {
                reading: last,
                outcome: Outcome::Refused(refusal),
            };
        }
    };
    let outcome = match event {
        Event::Message(_, number, request) => {
            Outcome::Leaves(looked.hear(reading, number, request))
        }
        Event::Tick => Outcome::Ticks,
    };
    Judged { reading, outcome }
}
