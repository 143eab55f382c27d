// The server: its settings, its last reading, its stations and its profiles.
ghost use Rattle.std.specs.Prelude.{◌≡◌};
ghost use Rattle.timing.specs.Settings.{wait, wait_answer};
ghost use Rattle.profiles.specs.Said.{said};
ghost use Rattle.judging.specs.Judge.{Within, LeavesWithin};
ghost use Rattle.server.specs.Settle.{stored, settled};
ghost use Rattle.server.specs.Step.{made, step};

use crate::event::{Answer, Event};
use crate::{judge, sweep, tick};
use judging::judge::{After, Judged, Outcome};
use members::member::{Member, Members, Status};
use profiles::profile::Profile;
use refusals::Refusal;
use timing::settings::Settings;

// One for each profile.
pub(crate) type Profiles = [Profile; Settings::PROFILES];

#[derive(Clone, Copy)]
pub struct Server {
    pub(crate) settings: Settings,
    pub(crate) reading: u64,
    pub(crate) members: Members,
    pub(crate) profiles: Profiles,
}

// A new server, and whether its settings are in range.
// Kept: a type of its own beside the room's, since callers read `made.server`.
#[derive(Clone, Copy)]
pub struct Made {
    pub server: Server,
    pub checked: Result<(), Refusal>,
}

// The server afterwards, and what it answers.
// Kept: a type of its own, as `Ruled` of `profiles` and `Outcome` of `station`, since its field says what was left.
#[derive(Clone, Copy)]
pub struct Served {
    pub server: Server,
    pub answer: Answer,
}

// Stores what a message leaves, at its station and its profile: they are in the arrays, or it would have been refused.
fn store(server: &mut Server, after: After) -> Answer
    requires { Within after.route }
    ensures { (server.new ≡ stored server.old after) × (result ≡ after.answer) }
{
    let station = after.route.station;
    let place = after.route.place;
    server.members[station] = after.member;
    if let Some(profile) = after.profile {
        server.profiles[place] = profile;
    }
    sweep::wipe_in(&mut server.profiles, after.gone);
    after.answer
}

// Stores what an event does. All that it needs to know stands in what was judged, but for a tick.
#[tactic(auto, unfolding(crate::specs::Settle::settled))]
fn settle(server: &mut Server, judged: Judged) -> Answer
    requires { LeavesWithin judged.outcome }
    ensures { (server.new ≡ (settled (wait_answer server.old.settings) server.old judged).server) × (result ≡ (settled (wait_answer server.old.settings) server.old judged).answer) }
{
    server.reading = judged.reading;
    match judged.outcome {
        Outcome::Refused(refusal) => Answer::Refused(refusal),
        Outcome::Ticks => tick::tick_in(server, judged.reading),
        Outcome::Leaves(after) => store(server, after),
    }
}

// Any event at any reading, on a server that stays where it is.
#[tactic(auto, using(crate::proofs::Judging::judged_settled))]
pub fn step_in(server: &mut Server, reading: u64, event: Event) -> Answer
    ensures { (server.new ≡ (step (wait server.old.settings) server.old reading event).server) × (said result ≡ said (step (wait server.old.settings) server.old reading event).answer) }
{
    let judged = judge::judge_in(server, reading, event);
    settle(server, judged)
}

impl Server {
    #[tactic(auto, unfolding(crate::specs::State::new_server))]
    pub fn new(settings: Settings) -> Made
        ensures { result ≡ made settings }
    {
        let nobody = Member {
            status: Status::Unknown,
            last: 0,
        };
        Made {
            server: Server {
                settings,
                reading: 0,
                members: [nobody; Settings::STATIONS],
                profiles: [Profile::empty(); Settings::PROFILES],
            },
            checked: settings.check(),
        }
    }

    // The same by value, for a caller that holds the server and hands it on: `step_in` on a copy.
    pub fn step(self, reading: u64, event: Event) -> Served
        ensures { (result.server ≡ (step (wait self.settings) self reading event).server) × (said result.answer ≡ said (step (wait self.settings) self reading event).answer) }
    {
        let mut next = self;
        let answer = step_in(&mut next, reading, event);
        Served {
            server: next,
            answer,
        }
    }
}
