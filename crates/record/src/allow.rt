// What the record allows, sentence by sentence.
ghost use Rattle.std.specs.Prelude.{◌≡◌};
ghost use Rattle.record.specs.Allowed.{is_kind, others, demands, allowed};

use crate::message::Message;

pub(crate) fn is_kind(kind: u8) -> bool
    ensures { result ≡ is_kind kind }
{
    (Message::HELLO..=Message::DEMAND).contains(&kind)
}

// Every kind but a demand, its number aside.
#[tactic(auto, unfolding(crate::specs::Allowed::others))]
fn others(m: Message) -> bool
    ensures { result ≡ others m }
{
    let on_profile = m.profile < Message::PROFILES;
    let no_mode = m.mode == Message::NO_MODE;
    let no_detail = m.detail == Message::NO_DETAIL;
    let bare = m.profile == Message::NO_PROFILE && no_mode;
    let modeless = on_profile && no_mode;
    let moded = on_profile && (Message::FIRST_MODE..=Message::LAST_MODE).contains(&m.mode);
    match m.kind {
        Message::HELLO | Message::KEEP_ALIVE => bare && no_detail,
        Message::ASK => moded && no_detail,
        Message::RELEASE | Message::KEEP => modeless && no_detail,
        Message::ACK => match m.detail {
            Message::DONE => bare,
            Message::GRANTED => moded,
            Message::WAIT | Message::IN_USE => modeless,
            _ => false,
        },
        Message::NACK => bare && m.detail <= Message::LAST_NACK,
        _ => false,
    }
}

#[tactic(auto, unfolding(crate::specs::Allowed::demands))]
fn demands(m: Message) -> bool
    ensures { result ≡ demands m }
{
    let demanded = (Message::FIRST_DEMANDED..=Message::LAST_MODE).contains(&m.mode);
    m.kind == Message::DEMAND
        && m.number == Message::NO_NUMBER
        && m.profile < Message::PROFILES
        && demanded
        && m.detail == Message::NO_DETAIL
}

// Speaks of the record, not of settings.
#[tactic(auto, unfolding(crate::specs::Allowed::allowed))]
pub fn allowed(m: Message) -> bool
    ensures { result ≡ allowed m }
{
    let numbered = Message::FIRST_NUMBER <= m.number && others(m);
    m.station < Message::STATIONS && (numbered || demands(m))
}
