// The tick: freeing, and then starting.
ghost use Rattle.std.specs.Prelude.{◌≡◌};
ghost use Rattle.timing.specs.Settings.{wait_answer};
ghost use Rattle.server.specs.Step.{tick};

use crate::event::Answer;
use crate::server::Server;
use crate::sweep;
use members::member::Status;

// "first each station timing out for W or more becomes unknown and its modes and marks go. Then each live station with a mark
// demanded for R or more ticks starts timing out now. Both sets are answered as masks."
pub(crate) fn tick_in(server: &mut Server, reading: u64) -> Answer
    ensures { (server.new ≡ (tick (wait_answer server.old.settings) server.old reading).server) × (result ≡ (tick (wait_answer server.old.settings) server.old reading).answer) }
{
    server.reading = reading;
    let wait = server.settings.wait();
    let freed = sweep::waited_in(&server.members, reading, wait);
    sweep::turn_in(&mut server.members, freed, Status::Unknown);
    sweep::wipe_in(&mut server.profiles, freed);
    let late = sweep::late_in(&server.profiles, reading, server.settings.answer_time());
    let started = late & sweep::live_in(&server.members);
    sweep::turn_in(&mut server.members, started, Status::TimingOut(reading));
    Answer::Ticked(freed, started)
}
