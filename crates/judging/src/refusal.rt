// Refusals 1 to 6: the lowest that applies.
ghost use Rattle.std.specs.Prelude.{◌≡◌};
ghost use Rattle.judging.specs.Refusal.{event_refusal, refusal};

use crate::event::Event;
use refusals::Refusal;
use timing::reading::Reading;
use timing::settings::Settings;

// 2 to 4: what the event names is out of range.
fn check_event(settings: Settings, event: Event) -> Result<(), Refusal>
    ensures { result ≡ event_refusal settings event }
{
    match event {
        Event::Message(station, _, request) => {
            refusals::unless(u64::from(station) < settings.stations(), Refusal::Station)?;
            requests::check_request(settings.profiles(), request)
        }
        Event::Tick => Ok(()),
    }
}

// Kept: four values, as `routed` has them, which alone calls this and passes them on.
#[tactic(auto, unfolding(crate::specs::Refusal::refusal))]
pub(crate) fn check(
    settings: Settings,
    last: u64,
    reading: u64,
    event: Event,
) -> Result<(), Refusal>
    ensures { result ≡ refusal settings last reading event }
{
    settings.check()?;
    check_event(settings, event)?;
    Reading::check(last, reading)
}
