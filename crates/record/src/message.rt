// A message, and the numbers of its record by name.
use timing::settings::Settings;

// Kept: six plain numbers and no enums, since a message that the record does not allow can be put to the writer, whose `put_record`
// answers 18 for it.
#[derive(Clone, Copy, Debug, PartialEq, Eq)]
pub struct Message {
    pub kind: u8,
    pub station: u8,
    pub number: u32,
    pub profile: u8,
    pub mode: u8,
    pub detail: u8,
}

impl Message {
    pub const LENGTH: usize = 11;

    // "B7 1E, the house mark"
    pub const MARK_FIRST: u8 = 0xB7;

    pub const MARK_SECOND: u8 = 0x1E;

    // Kinds.
    pub const HELLO: u8 = 1;

    pub const KEEP_ALIVE: u8 = 2;

    pub const ASK: u8 = 3;

    pub const RELEASE: u8 = 4;

    pub const KEEP: u8 = 5;

    pub const ACK: u8 = 6;

    pub const NACK: u8 = 7;

    pub const DEMAND: u8 = 8;

    // Details: of an ACK, the largest of a NACK, and where none is said.
    pub const DONE: u8 = 0;

    pub const GRANTED: u8 = 1;

    pub const WAIT: u8 = 2;

    pub const IN_USE: u8 = 3;

    pub const LAST_NACK: u8 = 1;

    pub const NO_DETAIL: u8 = 0;

    // Limits: stations and profiles count from 0; modes, and the numbers of all kinds but a demand, from 1.
    pub const STATIONS: u8 = Settings::STATIONS as u8;

    pub const NO_NUMBER: u32 = 0;

    pub const FIRST_NUMBER: u32 = 1;

    pub const PROFILES: u8 = Settings::PROFILES as u8;

    pub const NO_PROFILE: u8 = 255;

    pub const NO_MODE: u8 = 0;

    pub const FIRST_MODE: u8 = 1;

    pub const FIRST_DEMANDED: u8 = 2;

    pub const LAST_MODE: u8 = 6;
}
