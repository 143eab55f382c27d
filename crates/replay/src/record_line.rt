// The lines that read and write a record.
use crate::hex::{Bytes, MOST, bytes_of};
use crate::reply::Reply;
use crate::words::Words;
use record::Message;
use refusals::Refusal;

// What the buffer of a `write` line holds before it.
const UNWRITTEN: u8 = 0xEE;

// The bytes that were received, and the place of a record among them.
#[derive(Drop)]
pub(crate) struct ReadLine {
    received: Bytes,
    place: usize,
}

impl ReadLine {
    // After the word `read`.
    pub(crate) fn parse(words: &mut Words) -> Option<ReadLine> {
        Some(ReadLine {
            received: bytes_of(words.word()?)?,
            place: words.number()?,
        })
    }

    pub(crate) fn reply(&self) -> Result<Reply, Refusal> {
        let (message, next) = record::record_at(self.received.as_slice(), self.place)?;
        Ok(Reply::Message(message, next))
    }
}

// How many bytes the buffer has, the place to write at, and what to write there.
#[derive(Clone, Copy)]
pub(crate) struct WriteLine {
    room: usize,
    place: usize,
    message: Message,
}

impl WriteLine {
    // After the word `write`.
    pub(crate) fn parse(words: &mut Words) -> Option<WriteLine> {
        Some(WriteLine {
            room: words.number().filter(|room| *room <= MOST)?,
            place: words.number()?,
            message: message(words)?,
        })
    }

    pub(crate) fn reply(self) -> Reply {
        let mut buffer = Bytes::from([UNWRITTEN; MOST]);
        buffer.truncate(self.room);
        let put = writer::put_at(buffer.as_mut_slice(), self.place, self.message);
        Reply::Written(put, buffer)
    }
}

// The six fields, as they are.
fn message(words: &mut Words) -> Option<Message> {
    Some(Message {
        kind: words.number()?,
        station: words.number()?,
        number: words.number()?,
        profile: words.number()?,
        mode: words.number()?,
        detail: words.number()?,
    })
}
