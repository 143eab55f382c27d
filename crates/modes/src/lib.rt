// The six modes of a lock, and which of them go together, cover one another and join to which.
#![tactic(auto)]

ghost use Rattle.std.specs.Prelude.{◌≡◌};
ghost use Rattle.modes.specs.Modes.{as_mode, is_mode, goes_with, covers, join, writes, mode};
ghost use Rattle.modes.specs.Place.{place_at};

// A mode by its number in the paper. A number above 6 counts as no lock everywhere.
// Kept: a number and no enum, since an event may name a mode above 6, which `Server::step` and `Station::step` refuse by 4.
#[derive(Clone, Copy, Debug, PartialEq, Eq)]
pub struct Mode(pub u8);

impl Mode {
    pub const NONE: Mode = Mode(0);

    pub const M: Mode = Mode(1);

    pub const R: Mode = Mode(2);

    pub const S: Mode = Mode(3);

    pub const W: Mode = Mode(4);

    pub const U: Mode = Mode(5);

    pub const X: Mode = Mode(6);

    // How many modes there are.
    pub const COUNT: usize = 6;

    // Rows and columns of the three tables are in the order M R S W U X.
    const COMPATIBLE: [[bool; Mode::COUNT]; Mode::COUNT] = [
        [true, true, true, true, true, true], // M goes with all six
        [true, true, true, true, true, false], // R goes with M R S W U
        [true, true, true, false, false, false], // S goes with M R S
        [true, true, false, true, false, false], // W goes with M R W
        [true, true, false, false, false, false], // U goes with M R
        [true, false, false, false, false, false], // X goes with M
    ];

    const COVER: [[bool; Mode::COUNT]; Mode::COUNT] = [
        [true, false, false, false, false, false], // M covers M
        [true, true, false, false, false, false], // R covers M R
        [true, true, true, false, false, false], // S covers M R S
        [true, true, false, true, false, false], // W covers M R W
        [true, true, true, true, true, false], // U covers M R S W U
        [true, true, true, true, true, true], // X covers all six
    ];

    // Kept: by their numbers, so that the table reads as one; `join` makes modes of them.
    const JOINED: [[u8; Mode::COUNT]; Mode::COUNT] = [
        [1, 2, 3, 4, 5, 6],
        [2, 2, 3, 4, 5, 6],
        [3, 3, 3, 5, 5, 6],
        [4, 4, 5, 4, 5, 6],
        [5, 5, 5, 5, 5, 6],
        [6, 6, 6, 6, 6, 6],
    ];

    // Whether it is one of the six, and not 'no lock'.
    #[tactic(auto, unfolding(crate::specs::Modes::is_mode))]
    pub fn is_mode(self) -> bool
        ensures { result ≡ is_mode self.0 }
    {
        1 <= self.0 && self.0 <= Mode::COUNT as u8
    }

    // Its row and column in the tables, none for what is no mode.
    #[tactic(auto, using(crate::proofs::Lookup::place_none, crate::proofs::Lookup::place_mode), unfolding(crate::specs::Modes::is_mode))]
    fn place(self) -> Option<usize>
        ensures { result ≡ place_at self.0 }
    {
        if self.is_mode() {
            Some(self.0 as usize - 1)
        } else {
            None
        }
    }

    // Whether two stations may hold these modes on one profile.
    pub fn goes_with(self, other: Mode) -> bool
        ensures { result ≡ goes_with self.0 other.0 }
    {
        match (self.place(), other.place()) {
            (Some(i), Some(j)) => Mode::COMPATIBLE[i][j],
            _ => true,
        }
    }

    // Whether what may be done under the other mode may be done under this one.
    pub fn covers(self, other: Mode) -> bool
        ensures { result ≡ covers self.0 other.0 }
    {
        match (self.place(), other.place()) {
            (Some(i), Some(j)) => Mode::COVER[i][j],
            (_, None) => true,
            (None, Some(_)) => false,
        }
    }

    // The least mode that covers both.
    pub fn join(self, other: Mode) -> Mode
        ensures { result ≡ mode (join self.0 other.0) }
    {
        match (self.place(), other.place()) {
            (Some(i), Some(j)) => Mode(Mode::JOINED[i][j]),
            (Some(_), None) => self,
            (None, Some(_)) => other,
            (None, None) => Mode::NONE,
        }
    }

    // Whether a profile may be edited and written out under it: W, U and X are the modes that cover W.
    pub fn writes(self) -> bool
        ensures { result ≡ writes self.0 }
    {
        self.covers(Mode::W)
    }
}

// The mode of a number; what is not 1 to 6 is no lock.
impl From<u8> for Mode {
    ghost from_gives = { λ number result. result ≡ mode (as_mode number) };

    fn from(number: u8) -> Mode {
        match number {
            1 => Mode::M,
            2 => Mode::R,
            3 => Mode::S,
            4 => Mode::W,
            5 => Mode::U,
            6 => Mode::X,
            _ => Mode::NONE,
        }
    }
}
