// The parts of a station that an event changes, with the one hold that it names. A step works on these, so that the whole station,
// which is large, is taken apart and put together once.
ghost use Rattle.std.specs.Prelude.{◌≡◌};
ghost use Rattle.station.specs.Parts.{arrived_if, outcome_of};

use crate::effect;
use crate::event::{Answer, Event, Sent};
use holds::hold::Hold;
use holds::stage;
use holds::stage::Standing;
use room::rules::Seen;
use timing::settings::Settings;

// Kept: the station has the first four as fields of its own too, since the laws of `station` and `network` name them there.
#[derive(Clone, Copy)]
pub(crate) struct Parts {
    pub(crate) standing: Standing,
    // The lease start; 0 where the station is out.
    pub(crate) start: u64,
    pub(crate) last: u32,
    pub(crate) waiting: Option<Sent>,
    pub(crate) hold: Hold,
}

// The parts afterwards, and the answer.
// Kept: a type of its own, as `Ruled` of `profiles` and `Served` of `server`, since its field says what was left.
#[derive(Clone, Copy)]
pub(crate) struct Outcome {
    pub(crate) parts: Parts,
    pub(crate) answer: Answer,
}

impl Parts {
    // As the event finds them: where a lease has ended or a restart comes, only the last number is left.
    #[tactic(auto, unfolding(crate::specs::Parts::arrived_if))]
    pub(crate) fn arrived(self, cleared: bool) -> Parts
        ensures { result ≡ arrived_if cleared self }
    {
        if !cleared {
            return self;
        }
        Parts {
            standing: Standing::Out,
            start: 0,
            last: self.last,
            waiting: None,
            hold: Hold::empty(),
        }
    }

    // Refused by 8 to 14, or as the event leaves them.
    pub(crate) fn judged(
        self,
        settings: Settings,
        lease: u64,
        reading: u64,
        event: Event,
    ) -> Outcome
        ensures { result ≡ outcome_of settings lease self reading event }
    {
        let seen = Seen {
            stage: stage::stage_of(settings, self.standing, self.start, reading),
            hold: self.hold,
            waiting: self.waiting,
            lease,
            now: reading,
            last: self.last,
        };
        if let Err(refusal) = seen.forbids(event) {
            return Outcome {
                parts: self,
                answer: Answer::Refused(refusal),
            };
        }
        let sent = effect::sent_at(self.waiting);
        let last = effect::last_after(self.last, event);
        Outcome {
            parts: Parts {
                standing: effect::standing_after(self.standing, event),
                start: effect::start_after(self.start, sent, event),
                last,
                waiting: effect::waiting_after(self.waiting, reading, event),
                hold: effect::hold_after(self.hold, event),
            },
            answer: effect::answer_to(last, self.hold, event),
        }
    }
}
