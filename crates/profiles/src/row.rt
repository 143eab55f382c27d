// The row of one profile: sixteen modes in station order, handed over and handed back whole.
ghost use Rattle.std.specs.Prelude.{◌≡◌, get_or, set};
ghost use Rattle.masks.specs.Mask.{mask, change_under, some_under};
ghost use Rattle.modes.specs.Modes.{mode};
ghost use Rattle.profiles.specs.Sets.{conflicts, no_mode};
ghost use Rattle.profiles.specs.Under.{is_held};

use modes::Mode;
use timing::settings::Settings;

pub type Row = [Mode; Settings::STATIONS];

// The other stations that hold a mode incompatible with the wanted one.
#[tactic(auto, unfolding(crate::specs::Sets::conflicts))]
pub(crate) fn conflicts(row: Row, me: usize, wanted: Mode) -> u64
    ensures { result ≡ mask (conflicts me wanted.0 row) }
{
    masks::those_at(
        &row,
        |station, held| station != me && !wanted.goes_with(held),
    )
}

pub(crate) fn held(row: Row, station: usize) -> Mode
    ensures { result ≡ get_or row station (mode 0) }
{
    row.get(station).copied().unwrap_or(Mode::NONE)
}

pub(crate) fn with_mode(mut row: Row, station: usize, new: Mode) -> Row
    ensures { result ≡ set row station new }
{
    if station < Settings::STATIONS {
        row[station] = new;
    }
    row
}

// The modes of a set of stations go.
pub(crate) fn wiped(mut row: Row, stations: u64) -> Row
    ensures { result ≡ change_under no_mode stations row }
{
    masks::change_under(&mut row, stations, |_| Mode::NONE);
    row
}

// Whether a station of the set holds a mode.
pub(crate) fn some_in(row: Row, stations: u64) -> bool
    ensures { result ≡ some_under is_held stations row }
{
    masks::some_under(&row, stations, |held| held != Mode::NONE)
}
