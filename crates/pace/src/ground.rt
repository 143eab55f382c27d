// What all streams have in common.
use refusals::Refusal;
use timing::settings::Settings;

// The most stations and profiles, and an answer time that no stream reaches.
pub(crate) fn settings() -> Settings {
    Settings::new(
        2500,
        2500,
        2500,
        2500,
        1,
        1000,
        3_600_000,
        Settings::STATIONS as u64,
        Settings::PROFILES as u64,
    )
}

// Counted up for ever; from the highest number of a message on, again from 0.
pub(crate) fn number(n: u64) -> u32 {
    (n % 4_294_967_296) as u32
}

// What a refusal adds to a sum.
pub(crate) fn refused(refusal: Refusal) -> u64 {
    100 + u64::from(refusal.number())
}
