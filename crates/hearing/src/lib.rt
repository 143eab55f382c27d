// A station's message, judged on that station and the one profile that it names.
#![tactic(auto)]

ghost use Rattle.std.specs.Prelude.{◌≡◌, cond, []};
ghost use Rattle.masks.specs.Mask.{mask, set_of};
ghost use Rattle.timing.specs.Limits.{most_stations};
ghost use Rattle.profiles.specs.Sets.{only};
ghost use Rattle.hearing.specs.Hear.{answered, greeted, heed, welcome, hear, told};
ghost use Rattle.hearing.specs.Needs.{names, looks, asks};

use members::member::{Member, Status};
use profiles::answer::Answer;
use profiles::ask;
use profiles::profile::Profile;
use refusals::Refusal;
use requests::Request;
use timing::settings::Settings;

// What a message is judged on: who sent it, that station and the profile that it names, who is live, and when.
#[derive(Clone, Copy)]
pub struct Seen {
    pub me: usize,
    pub member: Member,
    pub profile: Profile,
    // The set of the live stations, which an ask needs to know.
    pub live: u64,
    pub reading: u64,
}

// The station and the profile afterwards, whether all that the station had is to go, and the answer.
#[derive(Clone, Copy)]
pub struct Heard {
    pub member: Member,
    pub profile: Profile,
    // Kept: as the definition has it; `gone` makes the set of it.
    pub greeted: bool,
    pub answer: Answer,
}

impl Seen {
    fn answered(self, answer: Answer) -> Heard
        ensures { result ≡ answered self.member self.profile answer }
    {
        Heard {
            member: self.member,
            profile: self.profile,
            greeted: false,
            answer,
        }
    }

    fn greeted(self) -> Heard
        ensures { result ≡ greeted self.member self.profile }
    {
        Heard {
            member: self.member.with_status(Status::Live),
            profile: self.profile,
            greeted: true,
            answer: Answer::Done,
        }
    }

    // What a live station's message does.
    #[tactic(auto, using(profiles::proofs::Under::wiped_under_lem, profiles::proofs::Under::kept_under_lem), unfolding(crate::specs::Hear::heed))]
    fn heed(mut self, request: Request) -> Heard
        ensures { result ≡ heed (set_of most_stations self.live) self.reading self.me request self.member self.profile }
    {
        match request {
            Request::Hello => self.greeted(),
            Request::KeepAlive => self.answered(Answer::Done),
            Request::Ask(number, asked) => {
                let ruled = ask::ask(
                    self.profile,
                    number,
                    self.live,
                    self.me,
                    asked,
                    self.reading,
                );
                self.profile = ruled.profile;
                self.answered(ruled.answer)
            }
            Request::Release(_) => {
                self.profile = self.profile.wiped(only(self.me));
                self.answered(Answer::Done)
            }
            Request::Keep(_) => {
                self.profile = self.profile.kept(only(self.me));
                self.answered(Answer::Done)
            }
        }
    }

    // A station that is unknown is heard only with a hello.
    #[tactic(auto, unfolding(crate::specs::Hear::welcome))]
    fn welcome(self, request: Request) -> Heard
        ensures { result ≡ welcome request self.member self.profile }
    {
        match request {
            Request::Hello => self.greeted(),
            _ => self.answered(Answer::Nack(1)),
        }
    }

    #[tactic(auto, unfolding(crate::specs::Hear::hear, crate::specs::Hear::if_new, crate::specs::Hear::by_status))]
    pub fn hear(mut self, number: u32, request: Request) -> Heard
        ensures { told result ≡ told (hear (set_of most_stations self.live) self.reading self.me number request self.member self.profile) }
    {
        if number <= self.member.last {
            return self.answered(Answer::Refused(Refusal::StaleNumber));
        }
        self.member.last = number;
        match self.member.status {
            Status::Unknown => self.welcome(request),
            Status::Live => self.heed(request),
            Status::TimingOut(_) => self.answered(Answer::Nack(0)),
        }
    }
}

// The set of one station.
fn only(station: usize) -> u64
    ensures { result ≡ mask (only station) }
{
    if station < Settings::STATIONS {
        1 << station
    } else {
        0
    }
}

// The set whose modes and marks go on every profile: a station that is greeted, or nobody.
pub fn gone(greeted: bool, station: usize) -> u64
    ensures { result ≡ mask (cond greeted (only station) []) }
{
    if greeted { only(station) } else { 0 }
}

// Whether the request is one about a profile.
fn names(request: Request) -> bool
    ensures { result ≡ names request }
{
    !matches!(request, Request::Hello | Request::KeepAlive)
}

// Whether a message comes to a rule about the profile that it names: any other leaves every profile as it is, or is a hello.
pub fn looks(member: Member, number: u32, request: Request) -> bool
    ensures { result ≡ looks number request member }
{
    member.last < number && member.is_live() && names(request)
}

// Whether the request is an ask: no other needs to know who is live.
pub fn asks(request: Request) -> bool
    ensures { result ≡ asks request }
{
    matches!(request, Request::Ask(..))
}
