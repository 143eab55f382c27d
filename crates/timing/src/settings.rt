// The settings that one server and its stations share, and what follows from them: the lease, the wait, the phases.
ghost use Rattle.std.specs.Prelude.{◌≡◌};
ghost use Rattle.timing.specs.Settings.{settings, within, lengths_good, rate_good, counts_good, settings_refusal, lease_answer, lease_checked, wait_answer, wait_checked};
ghost use Rattle.timing.specs.Phase.{phase_number, said_phase, phase_after};

use crate::lease::Lease;
use refusals::Refusal;

// Nine numbers, whatever they are; `check` says whether they are in range.
#[derive(Clone, Copy, Debug, PartialEq, Eq)]
pub struct Settings {
    phase1: u64,
    phase2: u64,
    phase3: u64,
    phase4: u64,
    // The rate allowance N/D.
    n: u64,
    d: u64,
    // The answer time R.
    r: u64,
    stations: u64,
    profiles: u64,
}

// A phase of a lease.
#[derive(Clone, Copy, Debug, PartialEq, Eq, PartialOrd, Ord)]
pub enum Phase {
    First,
    Second,
    Third,
    Fourth,
}

impl Phase {
    // "Phases 1 to 4"
    pub fn number(self) -> u8
        ensures { result ≡ phase_number self }
    {
        match self {
            Phase::First => 1,
            Phase::Second => 2,
            Phase::Third => 3,
            Phase::Fourth => 4,
        }
    }
}

// A phase with the ticks until it ends.
#[derive(Clone, Copy, Debug, PartialEq, Eq)]
pub struct Running {
    pub phase: Phase,
    pub left: u64,
}

fn within(low: u64, high: u64, x: u64) -> bool
    ensures { result ≡ within low high x }
{
    low <= x && x <= high
}

impl Settings {
    pub const RATE_LARGEST: u64 = 1_000_000;

    pub const ANSWER_LONGEST: u64 = 3_600_000;

    pub const STATIONS: usize = 16;

    pub const PROFILES: usize = 64;

    pub fn new(
        phase1: u64,
        phase2: u64,
        phase3: u64,
        phase4: u64,
        n: u64,
        d: u64,
        r: u64,
        stations: u64,
        profiles: u64,
    ) -> Settings
        ensures { result ≡ settings phase1 phase2 phase3 phase4 n d r stations profiles }
    {
        Settings {
            phase1,
            phase2,
            phase3,
            phase4,
            n,
            d,
            r,
            stations,
            profiles,
        }
    }

    // Each at least 1, and the sum no more than the longest lease. Each is held to that first, so that the sum fits.
    #[tactic(auto, unfolding(crate::specs::Settings::lengths_good))]
    fn lengths_good(self) -> bool
        ensures { result ≡ lengths_good self }
    {
        within(1, Lease::LONGEST, self.phase1)
            && within(1, Lease::LONGEST, self.phase2)
            && within(1, Lease::LONGEST, self.phase3)
            && within(1, Lease::LONGEST, self.phase4)
            && self.phase1 + self.phase2 + self.phase3 + self.phase4 <= Lease::LONGEST
    }

    #[tactic(auto, unfolding(crate::specs::Settings::rate_good))]
    fn rate_good(self) -> bool
        ensures { result ≡ rate_good self }
    {
        within(1, Settings::RATE_LARGEST, self.d) && self.n <= self.d
    }

    #[tactic(auto, unfolding(crate::specs::Settings::counts_good))]
    fn counts_good(self) -> bool
        ensures { result ≡ counts_good self }
    {
        within(1, Settings::ANSWER_LONGEST, self.r)
            && within(1, Settings::STATIONS as u64, self.stations)
            && within(1, Settings::PROFILES as u64, self.profiles)
    }

    // Whether each setting is in range.
    pub fn check(self) -> Result<(), Refusal>
        ensures { result ≡ settings_refusal self }
    {
        refusals::unless(
            self.lengths_good() && self.rate_good() && self.counts_good(),
            Refusal::Settings,
        )
    }

    // The lease L.
    pub fn try_lease(self) -> Result<u64, Refusal>
        ensures { result ≡ lease_checked self }
    {
        self.check()?;
        Ok(self.phase1 + self.phase2 + self.phase3 + self.phase4)
    }

    // The wait W.
    pub fn try_wait(self) -> Result<u64, Refusal>
        ensures { result ≡ wait_checked self }
    {
        let lease = self.try_lease()?;
        Ok((lease * (self.d + self.n) + (self.d - 1)) / self.d + 1)
    }

    // The lease, or 0 where a setting is out of range.
    // Kept: a number, beside `try_lease`, since this one cannot fail.
    pub fn lease(self) -> u64
        ensures { result ≡ lease_answer self }
    {
        self.try_lease().unwrap_or(0)
    }

    // The wait, or 0 where a setting is out of range.
    // Kept: a number, beside `try_wait`, since this one cannot fail.
    pub fn wait(self) -> u64
        ensures { result ≡ wait_answer self }
    {
        self.try_wait().unwrap_or(0)
    }

    // Kept: step by step, since the definition names the edge of each phase, and a loop over the four would want another beside it.
    // The phase some ticks after a lease start, or none where the lease is over. It takes off one length after another, so no
    // sum can overflow.
    pub fn phase(self, ticks: u64) -> Option<Running>
        ensures { said_phase result ≡ said_phase (phase_after self ticks) }
    {
        if ticks < self.phase1 {
            return Some(Running {
                phase: Phase::First,
                left: self.phase1 - ticks,
            });
        }
        let after1 = ticks - self.phase1;
        if after1 < self.phase2 {
            return Some(Running {
                phase: Phase::Second,
                left: self.phase2 - after1,
            });
        }
        let after2 = after1 - self.phase2;
        if after2 < self.phase3 {
            return Some(Running {
                phase: Phase::Third,
                left: self.phase3 - after2,
            });
        }
        let after3 = after2 - self.phase3;
        if after3 < self.phase4 {
            return Some(Running {
                phase: Phase::Fourth,
                left: self.phase4 - after3,
            });
        }
        None
    }

    // The answer time R.
    pub fn answer_time(self) -> u64
        ensures { result ≡ self.r }
    {
        self.r
    }

    pub fn stations(self) -> u64
        ensures { result ≡ self.stations }
    {
        self.stations
    }

    pub fn profiles(self) -> u64
        ensures { result ≡ self.profiles }
    {
        self.profiles
    }
}
