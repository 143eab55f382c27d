// The reader: it stands on the received bytes and remembers how far it has come.
#![tactic(auto)]

ghost use Rattle.std.specs.Prelude.{◌≡◌};
ghost use Rattle.reader.specs.Reader.{taken_by, said_taken, passed_from};

use record::{Message, record_at};
use refusals::Refusal;

#[derive(Clone, Copy)]
pub struct Reader<'a> {
    src: &'a [u8],
    at: usize,
}

// What was read, a message with the place after its record, and the reader afterwards: past the record, or where it stood.
#[derive(Clone, Copy)]
pub struct Taken<'a> {
    pub read: Result<(Message, usize), Refusal>,
    pub reader: Reader<'a>,
}

// How many records stand one after another, the place after them, and why no further one does.
#[derive(Clone, Copy, Debug, PartialEq, Eq)]
pub struct Passed {
    pub count: usize,
    pub next: usize,
    pub refusal: Refusal,
}

// All records that stand one after another from a place on, up to the first refusal.
#[tactic(auto, using(record::proofs::Said::said_read_injective, crate::proofs::Passing::lies, crate::proofs::Passing::passes, crate::proofs::Passing::stops))]
pub fn passed_from(s: &[u8], at: usize) -> Passed
    ensures { result ≡ passed_from s.now at }
{
    let mut next = at;
    let mut count = 0;
    // Kept: a `for` would owe an answer for an end that never comes, since only a refusal ends the loop.
    loop {
        match record_at(s, next) {
            Ok((_, place)) => {
                next = place;
                count += 1;
            }
            Err(refusal) => {
                return Passed {
                    count,
                    next,
                    refusal,
                };
            }
        }
    }
}

impl<'a> Reader<'a> {
    // At the first of the received bytes.
    pub fn new(src: &'a [u8]) -> Reader<'a>
        ensures { result ≡ record { src = src.entry; at = 0 } }
    {
        Reader { src, at: 0 }
    }

    // How far it has come.
    pub fn place(self) -> usize
        ensures { result ≡ self.entry.at }
    {
        self.at
    }

    // The next record, or why there is none.
    pub fn take(self) -> Taken<'a>
        ensures { said_taken result ≡ said_taken (taken_by self.entry) }
    {
        let read = record_at(self.src, self.at);
        let at = match read {
            Ok((_, next)) => next,
            Err(_) => self.at,
        };
        Taken {
            read,
            reader: Reader { at, ..self },
        }
    }

    // All that is left, from where it stands.
    pub fn rest(self) -> Passed
        ensures { result ≡ passed_from self.entry.src.now self.entry.at }
    {
        passed_from(self.src, self.at)
    }
}

// A whole buffer, from its start: whoever has a plain slice needs no reader of their own.
pub fn records(s: &[u8]) -> Passed
    ensures { result ≡ passed_from s.now 0 }
{
    Reader::new(s).rest()
}
