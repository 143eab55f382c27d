// Where a station stands in its lease, as the rules ask for it.
ghost use Rattle.std.specs.Prelude.{◌≡◌};
ghost use Rattle.timing.specs.Phase.{phase_number};
ghost use Rattle.holds.specs.Stage.{phase_said, closing_number, phase_at, stage_at};

use timing::settings::{Phase, Settings};

#[derive(Clone, Copy, Debug, PartialEq, Eq)]
pub enum Standing {
    Out,
    Open,
    Closing,
}

// Kept: three flags, each of which a rule asks for by itself, as `stage_at` has them.
#[derive(Clone, Copy, Debug, PartialEq, Eq)]
pub struct Stage {
    pub out: bool,
    // Open, phase 1 or 2.
    pub early: bool,
    // Up to phase 3.
    pub not_late: bool,
}

// Closing counts phases 1 and 2 as 3.
fn while_closing(phase: Phase) -> Phase
    ensures { phase_number result ≡ closing_number phase }
{
    phase.max(Phase::Third)
}

// None where the station is out, or its lease over.
// Kept: `stage_of` takes the same four values; a station asks each in one place, and a struct of them would be built for that alone.
#[tactic(auto, using(timing::proofs::Said::phase_told), unfolding(crate::specs::Stage::phase_at))]
pub fn phase_at(settings: Settings, standing: Standing, start: u64, reading: u64) -> Option<Phase>
    ensures { phase_said result ≡ phase_at settings standing start reading }
{
    let running = settings.phase(reading.saturating_sub(start))?;
    match standing {
        Standing::Out => None,
        Standing::Open => Some(running.phase),
        Standing::Closing => Some(while_closing(running.phase)),
    }
}

pub fn stage_of(settings: Settings, standing: Standing, start: u64, reading: u64) -> Stage
    ensures { result ≡ stage_at settings standing start reading }
{
    let phase = phase_at(settings, standing, start, reading);
    Stage {
        out: standing == Standing::Out,
        early: phase.is_some_and(|phase| phase <= Phase::Second),
        not_late: phase.is_some_and(|phase| phase <= Phase::Third),
    }
}
