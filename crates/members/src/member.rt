// What the server knows of a station: whether it is live, and the number of its last message.
ghost use Rattle.std.specs.Prelude.{◌≡◌};
ghost use Rattle.members.specs.Member.{is_live, is_waited, restatus};

use timing::reading::Reading;
use timing::settings::Settings;

#[derive(Clone, Copy, Debug, PartialEq, Eq)]
pub enum Status {
    Unknown,
    Live,
    // Timing out since a reading.
    TimingOut(u64),
}

#[derive(Clone, Copy, Debug, PartialEq, Eq)]
pub struct Member {
    pub status: Status,
    pub last: u32,
}

// One for each station.
pub type Members = [Member; Settings::STATIONS];

impl Member {
    pub fn is_live(self) -> bool
        ensures { result ≡ is_live self.status }
    {
        matches!(self.status, Status::Live)
    }

    // Whether it has been timing out for `wait` or more ticks at the reading `now`.
    pub fn waited(self, now: u64, wait: u64) -> bool
        ensures { result ≡ is_waited wait now self.status }
    {
        match self.status {
            Status::TimingOut(since) => Reading::passed(since, wait, now),
            _ => false,
        }
    }

    pub fn with_status(self, status: Status) -> Member
        ensures { result ≡ restatus status self }
    {
        Member {
            status,
            last: self.last,
        }
    }
}
