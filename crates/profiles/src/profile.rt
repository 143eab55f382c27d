// One profile at the server: its row of modes and its marks, in station order.
ghost use Rattle.std.specs.Prelude.{◌≡◌};
ghost use Rattle.masks.specs.Mask.{mask};
ghost use Rattle.profiles.specs.Profile.{empty_profile};
ghost use Rattle.profiles.specs.Sets.{is_late, marks_with};
ghost use Rattle.profiles.specs.Under.{wiped_under, kept_under, touched_under};

use crate::row;
use crate::row::Row;
use members::mark;
use members::mark::{Mark, Marked, Marks};
use modes::Mode;
use timing::settings::Settings;

// Kept: two arrays side by side: a mode and a mark in one would take sixteen bytes in place of nine, and a server has 1,024 of them.
#[derive(Clone, Copy, Debug, PartialEq, Eq)]
pub struct Profile {
    pub(crate) row: Row,
    pub(crate) marks: Marks,
}

impl Profile {
    pub fn empty() -> Profile
        ensures { result ≡ empty_profile }
    {
        Profile {
            row: [Mode::NONE; Settings::STATIONS],
            marks: [Marked::from(Mark::Unmarked); Settings::STATIONS],
        }
    }

    // The modes and marks of a set of stations go.
    #[tactic(auto, unfolding(crate::specs::Under::wiped_under))]
    pub fn wiped(self, set: u64) -> Profile
        ensures { result ≡ wiped_under set self }
    {
        Profile {
            row: row::wiped(self.row, set),
            marks: mark::wiped(self.marks, set),
        }
    }

    #[tactic(auto, unfolding(crate::specs::Under::kept_under))]
    pub fn kept(self, set: u64) -> Profile
        ensures { result ≡ kept_under set self }
    {
        Profile {
            marks: mark::kept(self.marks, set),
            ..self
        }
    }

    // Whether a station of the set has a mode or a mark, so that wiping it changes something.
    #[tactic(auto, unfolding(crate::specs::Under::touched_under))]
    pub fn touched(self, set: u64) -> bool
        ensures { result ≡ touched_under set self }
    {
        row::some_in(self.row, set) || mark::some_in(self.marks, set)
    }

    // The stations with a mark demanded for `answer` or more ticks.
    pub fn late(&self, now: u64, answer: u64) -> u64
        ensures { result ≡ mask (marks_with (is_late answer now) self.now.marks) }
    {
        if !mark::any_in(&self.marks) {
            return 0;
        }
        mark::late_in(self.marks, now, answer)
    }
}
