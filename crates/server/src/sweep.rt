// Going over all stations, or all profiles, where they stand: nothing is copied but the one that is looked at.
ghost use Rattle.std.specs.Prelude.{◌≡◌, map};
ghost use Rattle.masks.specs.Mask.{mask, change_under};
ghost use Rattle.members.specs.Member.{is_waited, members_with, live_set, restatus};
ghost use Rattle.profiles.specs.Sets.{late_set};
ghost use Rattle.profiles.specs.Under.{wiped_under};

use crate::server::Profiles;
use members::member::{Members, Status};

// The set of the live stations.
pub(crate) fn live_in(members: &Members) -> u64
    ensures { result ≡ mask (live_set members.now) }
{
    masks::those(members, |member| member.is_live())
}

// The set of those who have been timing out for the wait.
// Kept: the reading and the time to be waited, here, in `late_in` and in what they call, are two plain numbers and no pair of their own.
pub(crate) fn waited_in(members: &Members, reading: u64, wait: u64) -> u64
    ensures { result ≡ mask (members_with (is_waited wait reading) members.now) }
{
    masks::those(members, |member| member.waited(reading, wait))
}

// The stations of a set get a new status.
#[tactic(auto, using(crate::proofs::Sweeping::none_changed))]
pub(crate) fn turn_in(members: &mut Members, set: u64, status: Status)
    ensures { members.new ≡ change_under (restatus status) set members.old }
{
    if set != 0 {
        masks::change_under(members, set, |member| member.with_status(status));
    }
}

// The modes and marks of a set of stations go on every profile. A profile is written only where something goes.
#[tactic(auto, using(profiles::proofs::Under::none_wiped))]
pub(crate) fn wipe_in(profiles: &mut Profiles, set: u64)
    ensures { profiles.new ≡ map (wiped_under set) profiles.old }
{
    if set == 0 {
        return;
    }
    for profile in profiles.iter_mut() {
        if profile.touched(set) {
            *profile = profile.wiped(set);
        }
    }
}

// The stations with a mark demanded for `answer` or more ticks on any profile.
#[tactic(auto, using(crate::proofs::Sweeping::late_more))]
pub(crate) fn late_in(profiles: &Profiles, reading: u64, answer: u64) -> u64
    ensures { result ≡ mask (late_set answer reading profiles.now) }
{
    let mut late = 0;
    for profile in profiles {
        late |= profile.late(reading, answer);
    }
    late
}
