// The ask rule, on one profile.
ghost use Rattle.std.specs.Prelude.{◌≡◌};
ghost use Rattle.masks.specs.Mask.{set_of};
ghost use Rattle.timing.specs.Limits.{most_stations};
ghost use Rattle.profiles.specs.Ask.{ask_rule};
ghost use Rattle.profiles.specs.Said.{said};

use crate::answer::Answer;
use crate::profile::Profile;
use crate::row;
use members::mark;
use members::mark::EVERYONE;
use modes::Mode;

// What the rule leaves and answers.
// Kept: a type of its own, as `Served` of `server` and `Outcome` of `station`, since its field says what was left.
#[derive(Clone, Copy, Debug, PartialEq, Eq)]
pub struct Ruled {
    pub profile: Profile,
    pub answer: Answer,
}

// `number` is the profile's; `live` is the set of the live stations.
// Kept: six values, since `Seen` of `hearing`, which has most of them together, stands above this crate.
pub fn ask(profile: Profile, number: u8, live: u64, me: usize, asked: Mode, now: u64) -> Ruled
    ensures { (result.profile ≡ (ask_rule (set_of most_stations live) number now me asked.0 profile).profile) × (said result.answer ≡ said (ask_rule (set_of most_stations live) number now me asked.0 profile).answer) }
{
    let wanted = row::held(profile.row, me).join(asked);
    let conflicts = row::conflicts(profile.row, me, wanted);
    if conflicts == 0 {
        return Ruled {
            profile: Profile {
                row: row::with_mode(profile.row, me, wanted),
                ..profile
            },
            answer: Answer::Granted(number, wanted),
        };
    }
    let kept = mark::kept_in(profile.marks);
    if conflicts & kept != 0 {
        return Ruled {
            profile: Profile {
                marks: mark::without_kept(profile.marks, EVERYONE),
                ..profile
            },
            answer: Answer::InUse(number),
        };
    }
    let demanded = conflicts & live;
    Ruled {
        profile: Profile {
            marks: mark::demanded(profile.marks, demanded, now),
            ..profile
        },
        answer: Answer::Wait(number, wanted, demanded, masks::count(demanded)),
    }
}
