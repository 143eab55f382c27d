// Why the engines, the reader and the writer refuse what they are given: the paper's table of refusals.
#![tactic(auto)]

ghost use Rattle.std.specs.Prelude.{◌≡◌, cond, Ok, Err, Some};
ghost use Rattle.refusals.specs.Refusal.{number, printed};

use std::error::Error;
use std::fmt;

// "The lowest number wins", so they stand in the order of their numbers.
#[derive(Clone, Copy, Debug, PartialEq, Eq)]
pub enum Refusal {
    // 1 to 6 change nothing.
    Settings,
    Station,
    Profile,
    Mode,
    AboveLimit,
    BelowLast,
    // A server's alone, and changes its reading only.
    StaleNumber,
    // A room's alone: they change its reading, and may end its lease.
    Out,
    PhaseForbids,
    ModeForbids,
    OperationCount,
    StillUsed,
    NumbersUsed,
    NotAwaited,
    // Of the reader and the writer.
    TooShort,
    BadMark,
    BadKind,
    NotAllowed,
    NoRoom,
}

impl Refusal {
    // The paper's number.
    pub fn number(self) -> u8
        ensures { result ≡ number self }
    {
        match self {
            Refusal::Settings => 1,
            Refusal::Station => 2,
            Refusal::Profile => 3,
            Refusal::Mode => 4,
            Refusal::AboveLimit => 5,
            Refusal::BelowLast => 6,
            Refusal::StaleNumber => 7,
            Refusal::Out => 8,
            Refusal::PhaseForbids => 9,
            Refusal::ModeForbids => 10,
            Refusal::OperationCount => 11,
            Refusal::StillUsed => 12,
            Refusal::NumbersUsed => 13,
            Refusal::NotAwaited => 14,
            Refusal::TooShort => 15,
            Refusal::BadMark => 16,
            Refusal::BadKind => 17,
            Refusal::NotAllowed => 18,
            Refusal::NoRoom => 19,
        }
    }
}

// Refused, unless it holds.
pub fn unless(holds: bool, refusal: Refusal) -> Result<(), Refusal>
    ensures { result ≡ cond holds (Ok tt) (Err refusal) }
{
    if holds { Ok(()) } else { Err(refusal) }
}

// Printed by its number, as the paper speaks of it.
impl fmt::Display for Refusal {
    ghost output = { λ refusal. Some (printed refusal) };

    fn fmt<W: fmt::Write>(&self, f: &mut fmt::Formatter<W>) -> fmt::Result {
        write!(f, "refused {}", self.number())
    }
}

impl Error for Refusal {}
