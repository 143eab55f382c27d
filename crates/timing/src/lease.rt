// A lease: its length, and the ticks left of it at a reading.
ghost use Rattle.std.specs.Prelude.{◌≡◌};
ghost use Rattle.timing.specs.Lease.{said_left, left_of};

use crate::reading::Reading;
use refusals::Refusal;

// The kind that the limits of a lease belong to, and the ticks left of one. A lease itself is a plain number of ticks.
#[derive(Clone, Copy, Debug, PartialEq, Eq)]
pub struct Lease(pub u64);

impl Lease {
    // A lease is at least one tick for each phase, and at most this many.
    pub const SHORTEST: u64 = 4;

    pub const LONGEST: u64 = 3_600_000;

    // Positive while a lease of `length` ticks lasts, zero at the first tick without it, negative after.
    pub fn left(start: u64, length: u64, reading: u64) -> Result<i64, Refusal>
        ensures { said_left result ≡ said_left (left_of start length reading) }
    {
        if length < Lease::SHORTEST || Lease::LONGEST < length {
            return Err(Refusal::Settings);
        }
        if Reading::LIMIT < start || Reading::LIMIT < reading {
            return Err(Refusal::AboveLimit);
        }
        if reading < start {
            return Err(Refusal::BelowLast);
        }
        let end = (start + length) as i64;
        let now = reading as i64;
        Ok(end - now)
    }
}
