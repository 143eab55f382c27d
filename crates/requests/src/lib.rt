// What a station asks of the server: what it names, what of it is out of range, and the message that it is.
#![tactic(auto)]

ghost use Rattle.std.specs.Prelude.{◌≡◌};
ghost use Rattle.modes.specs.Modes.{is_mode};
ghost use Rattle.requests.specs.Request.{profile_of, profile_refusal, pair_refusal, request_refusal, message_of, said_asked, request_of};

use modes::Mode;
use record::Message;
use refusals::Refusal;

// Profile and mode are numbers as given or received.
#[derive(Clone, Copy, Debug, PartialEq, Eq)]
pub enum Request {
    Hello,
    KeepAlive,
    Ask(u8, Mode),
    Release(u8),
    Keep(u8),
}

// The profile that a request names, 0 where it names none.
// Kept: a number and no Option: where none is named, profile 0 is looked at and left as it is, so that no caller has to ask.
pub fn profile_of(request: Request) -> u8
    ensures { result ≡ profile_of request }
{
    match request {
        Request::Hello | Request::KeepAlive => 0,
        Request::Ask(profile, _) | Request::Release(profile) | Request::Keep(profile) => profile,
    }
}

// Whether a profile is in range.
pub fn check_profile(profiles: u64, profile: u8) -> Result<(), Refusal>
    ensures { result ≡ profile_refusal profiles profile }
{
    refusals::unless(u64::from(profile) < profiles, Refusal::Profile)
}

// Whether a profile and a mode are.
pub fn check_pair(profiles: u64, profile: u8, mode: Mode) -> Result<(), Refusal>
    ensures { result ≡ pair_refusal profiles profile (is_mode mode.0) }
{
    check_profile(profiles, profile)?;
    refusals::unless(mode.is_mode(), Refusal::Mode)
}

// Whether what a request names is.
pub fn check_request(profiles: u64, request: Request) -> Result<(), Refusal>
    ensures { result ≡ request_refusal profiles request }
{
    match request {
        Request::Hello | Request::KeepAlive => Ok(()),
        Request::Ask(profile, mode) => check_pair(profiles, profile, mode),
        Request::Release(profile) | Request::Keep(profile) => check_profile(profiles, profile),
    }
}

// The message of what a station asks under a number: but for its kind and what it names, a hello.
#[tactic(auto, unfolding(crate::specs::Request::message_of))]
pub fn message_of(station: u8, number: u32, request: Request) -> Message
    ensures { result ≡ message_of station number request }
{
    let hello = Message {
        kind: Message::HELLO,
        station,
        number,
        profile: Message::NO_PROFILE,
        mode: Message::NO_MODE,
        detail: Message::NO_DETAIL,
    };
    match request {
        Request::Hello => hello,
        Request::KeepAlive => Message {
            kind: Message::KEEP_ALIVE,
            ..hello
        },
        Request::Ask(profile, mode) => Message {
            kind: Message::ASK,
            profile,
            mode: mode.0,
            ..hello
        },
        Request::Release(profile) => Message {
            kind: Message::RELEASE,
            profile,
            ..hello
        },
        Request::Keep(profile) => Message {
            kind: Message::KEEP,
            profile,
            ..hello
        },
    }
}

// What a message asks, or none where it is of another kind.
// Kept: no TryFrom, since there is nothing to say of what is no request but that it is none.
#[tactic(auto, unfolding(crate::specs::Request::request_of))]
pub fn request_of(m: Message) -> Option<Request>
    ensures { said_asked result ≡ said_asked (request_of m) }
{
    let request = match m.kind {
        Message::HELLO => Request::Hello,
        Message::KEEP_ALIVE => Request::KeepAlive,
        Message::ASK => Request::Ask(m.profile, Mode(m.mode)),
        Message::RELEASE => Request::Release(m.profile),
        Message::KEEP => Request::Keep(m.profile),
        _ => return None,
    };
    Some(request)
}
