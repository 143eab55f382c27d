// A clock's reading in whole ticks, what refuses one, and the reading that a 32-bit counter stands for.
ghost use Rattle.std.specs.Prelude.{◌≡◌};
ghost use Rattle.timing.specs.Reading.{said_widened, widened, reading_refusal, passed};

use refusals::Refusal;

// The kind that the limit and the rules of a reading belong to. A reading itself is a plain number of ticks.
#[derive(Clone, Copy, Debug, PartialEq, Eq)]
pub struct Reading(pub u64);

impl Reading {
    // Readings run from 0 to this one.
    pub const LIMIT: u64 = 4_000_000_000_000;

    // The reading that a counter stands for, which was the low 32 bits of `last` at that reading.
    pub fn widen(last: u64, counter: u32) -> Result<u64, Refusal>
        ensures { said_widened result ≡ said_widened (widened last counter) }
    {
        if Reading::LIMIT < last {
            return Err(Refusal::AboveLimit);
        }
        let low = (last % 4_294_967_296) as u32;
        let advance = std::num::wrapping_sub_u32(counter, low);
        let reading = last + advance as u64;
        if reading <= Reading::LIMIT {
            Ok(reading)
        } else {
            Err(Refusal::AboveLimit)
        }
    }

    // Whether a reading may follow the last one.
    pub fn check(last: u64, reading: u64) -> Result<(), Refusal>
        ensures { result ≡ reading_refusal last reading }
    {
        refusals::unless(reading <= Reading::LIMIT, Refusal::AboveLimit)?;
        refusals::unless(last <= reading, Refusal::BelowLast)
    }

    // Whether a time that began at `since` has run `length` ticks or more.
    pub fn passed(since: u64, length: u64, now: u64) -> bool
        ensures { result ≡ passed since length now }
    {
        since <= now && length <= now - since
    }
}
