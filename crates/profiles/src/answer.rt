// What the server answers. The ask rule gives three of these.
use modes::Mode;
use refusals::Refusal;

#[derive(Clone, Copy, Debug, PartialEq, Eq)]
pub enum Answer {
    Done,
    // Profile and mode.
    Granted(u8, Mode),
    // Profile, wanted mode, the stations it is demanded of and how many they are.
    Wait(u8, Mode, u64, u32),
    // Profile.
    InUse(u8),
    // Kept: the detail is a number, the record's byte; the theorems `nack_0` and `nack_1` of `server` name the two.
    Nack(u8),
    // The stations freed and those that start timing out.
    Ticked(u64, u64),
    Refused(Refusal),
}
