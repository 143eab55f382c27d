// What stands at a place of received bytes: a record, or why there is none.
ghost use Rattle.std.specs.Prelude.{◌≡◌};
ghost use Rattle.record.specs.Read.{marked, message_of, read_bytes, read_at, said_read};

use crate::allow::{allowed, is_kind};
use crate::message::Message;
use refusals::Refusal;

fn marked(first: u8, second: u8) -> bool
    ensures { result ≡ marked first second }
{
    first == Message::MARK_FIRST && second == Message::MARK_SECOND
}

// The six numbers of eleven bytes.
// Kept: no From, since it has one caller, and bytes that nothing has judged are no message yet.
fn message_of(b: &[u8; Message::LENGTH]) -> Message
    ensures { result ≡ message_of b.now }
{
    let [_, _, kind, station, n0, n1, n2, n3, profile, mode, detail] = *b;
    let number = u32::from_be_bytes([n0, n1, n2, n3]);
    Message {
        kind,
        station,
        number,
        profile,
        mode,
        detail,
    }
}

// Eleven bytes, judged in the order of the refusals, and the place after them.
#[tactic(auto, unfolding(crate::specs::Read::read_bytes))]
fn judged(b: &[u8; Message::LENGTH], next: usize) -> Result<(Message, usize), Refusal>
    ensures { result ≡ read_bytes b.now next }
{
    if !marked(b[0], b[1]) {
        return Err(Refusal::BadMark);
    }
    let m = message_of(b);
    if !is_kind(m.kind) {
        return Err(Refusal::BadKind);
    }
    if !allowed(m) {
        return Err(Refusal::NotAllowed);
    }
    Ok((m, next))
}

// What stands at a place, whatever the place is: the message and the place after its record.
#[tactic(auto, using(crate::proofs::Short::too_short))]
pub fn record_at(s: &[u8], at: usize) -> Result<(Message, usize), Refusal>
    ensures { said_read result ≡ said_read (read_at s.now at) }
{
    let rest = s.get(at..).ok_or(Refusal::TooShort)?;
    let bytes = rest.first_chunk().ok_or(Refusal::TooShort)?;
    judged(bytes, at + Message::LENGTH)
}
