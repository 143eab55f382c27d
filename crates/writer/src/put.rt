// The writer: one record into what room is left.
ghost use Rattle.std.specs.Prelude.{◌≡◌};
ghost use Rattle.writer.specs.Put.{bytes_of, put_answer, put_content, said_put};

use record::{Message, allowed};
use refusals::Refusal;

// Kept: no From: a message and an array are no types of this crate, and `record`, whose message it is, does not write.
fn bytes_of(m: Message) -> [u8; Message::LENGTH]
    ensures { result ≡ bytes_of m }
{
    let [n0, n1, n2, n3] = m.number.to_be_bytes();
    [
        Message::MARK_FIRST,
        Message::MARK_SECOND,
        m.kind,
        m.station,
        n0,
        n1,
        n2,
        n3,
        m.profile,
        m.mode,
        m.detail,
    ]
}

// A record into the front of a buffer: its length, or why it was not written.
pub fn put_record(buf: &mut [u8], m: Message) -> Result<usize, Refusal>
    ensures { (said_put result ≡ said_put (put_answer m 0 buf.old)) × (buf.new ≡ put_content m 0 buf.old) }
{
    if !allowed(m) {
        return Err(Refusal::NotAllowed);
    }
    let front = buf.first_chunk_mut().ok_or(Refusal::NoRoom)?;
    *front = bytes_of(m);
    Ok(Message::LENGTH)
}

// A record at a place, or at the end if the place is past it: what room is left there is lent on. It gives the place after the record.
#[tactic(auto, using(crate::proofs::Said::said_put_injective, crate::proofs::Lent::lent_answer, crate::proofs::Lent::lent_content))]
pub fn put_at(buf: &mut [u8], at: usize, m: Message) -> Result<usize, Refusal>
    ensures { (said_put result ≡ said_put (put_answer m at buf.old)) × (buf.new ≡ put_content m at buf.old) }
{
    let start = at.min(buf.len());
    let used = put_record(&mut buf[start..], m)?;
    Ok(start + used)
}
