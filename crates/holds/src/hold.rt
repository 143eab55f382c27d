// What a station has on a profile: a mode, a count of started operations, and whether something is unwritten.
ghost use Rattle.std.specs.Prelude.{◌≡◌};
ghost use Rattle.masks.specs.Mask.{mask};
ghost use Rattle.holds.specs.Hold.{no_hold, no_holds, hold_in, with_mode, with_started, with_unwritten, unwritten_set};

use modes::Mode;
use timing::settings::Settings;

#[derive(Clone, Copy, Debug, PartialEq, Eq)]
pub struct Hold {
    pub mode: Mode,
    pub started: u8,
    pub unwritten: bool,
}

impl Hold {
    // The most operations that can be started on a profile.
    pub const MOST: u8 = 255;

    pub fn empty() -> Hold
        ensures { result ≡ no_hold }
    {
        Hold {
            mode: Mode::NONE,
            started: 0,
            unwritten: false,
        }
    }

    pub fn with_mode(self, mode: Mode) -> Hold
        ensures { result ≡ with_mode mode.0 self }
    {
        Hold { mode, ..self }
    }

    pub fn with_started(self, started: u8) -> Hold
        ensures { result ≡ with_started started self }
    {
        Hold { started, ..self }
    }

    pub fn with_unwritten(self, unwritten: bool) -> Hold
        ensures { result ≡ with_unwritten unwritten self }
    {
        Hold { unwritten, ..self }
    }
}

// One for each profile.
pub type Holds = [Hold; Settings::PROFILES];

#[tactic(auto, unfolding(crate::specs::Hold::no_holds))]
pub fn no_holds() -> Holds
    ensures { result ≡ no_holds }
{
    [Hold::empty(); Settings::PROFILES]
}

pub fn hold_at(holds: Holds, profile: u8) -> Hold
    ensures { result ≡ hold_in holds profile }
{
    holds
        .get(profile as usize)
        .copied()
        .unwrap_or(Hold::empty())
}

// The profiles with something unwritten.
pub fn unwritten_in(holds: Holds) -> u64
    ensures { result ≡ mask (unwritten_set holds) }
{
    masks::those(&holds, |hold: Hold| hold.unwritten)
}
