// An event, judged on a server that stays as it is.
ghost use Rattle.std.specs.Prelude.{◌≡◌};
ghost use Rattle.judging.specs.Judge.{Within, LeavesWithin};
ghost use Rattle.server.specs.Settle.{look_at, judge_on};

use crate::event::Event;
use crate::server::Server;
use crate::sweep;
use judging::judge;
use judging::judge::{Judged, Looked, Needs, Route};

// As little of the server as the event needs.
fn look(server: &Server, route: Route, event: Event) -> Looked
    requires { Within route }
    ensures { result ≡ look_at server.now event route }
{
    let member = server.members[route.station];
    let (profile, live) = match judge::needed(member, event) {
        Needs::Nothing => (None, 0),
        Needs::Profile => (Some(server.profiles[route.place]), 0),
        Needs::ProfileAndLive => (
            Some(server.profiles[route.place]),
            sweep::live_in(&server.members),
        ),
    };
    Looked {
        route,
        member,
        profile,
        live,
    }
}

// Looks, and changes nothing. What a message leaves is at a station and a profile of the arrays, so nothing is tested as it is stored.
pub(crate) fn judge_in(server: &Server, reading: u64, event: Event) -> Judged
    ensures { (result ≡ judge_on server.now reading event) × LeavesWithin result.outcome }
{
    let last = server.reading;
    let routed = judge::routed(server.settings, last, reading, event);
    let looked = routed.map(|route| look(server, route, event));
    judge::judge(looked, last, reading, event)
}
