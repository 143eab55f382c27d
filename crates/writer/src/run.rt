// The writer of several records: one after another, each into what room is left.
ghost use Rattle.std.specs.Prelude.{◌≡◌};
ghost use Rattle.writer.specs.Run.{messages_of, run_answer, run_content};

use crate::put::put_at;
use record::Message;
use refusals::Refusal;

// One answer and up to a demand for each station; the first `count` of the messages are meant, or all if it is beyond the array.
// Kept: a count beside an array, since `put_run` answers for a count beyond the array too, which a vector of fixed room can't have.
#[derive(Clone, Copy, Debug, PartialEq, Eq)]
pub struct Run {
    pub count: usize,
    pub messages: [Message; Run::MOST],
}

impl Run {
    pub const MOST: usize = Message::STATIONS as usize + 1;

    // The messages that are meant.
    fn meant(&self) -> &[Message]
        ensures { result.now ≡ messages_of self.now }
    {
        &self.messages[..self.count.min(Run::MOST)]
    }
}

// How many records were written, the place after them, and why the next was not, if there was one.
#[derive(Clone, Copy, Debug, PartialEq, Eq)]
pub struct Written {
    pub written: usize,
    pub next: usize,
    pub refusal: Option<Refusal>,
}

// The first message that is refused ends the run: none of its bytes are written, and the records before it stand.
#[tactic(auto, using(crate::proofs::Said::said_put_injective, crate::proofs::Turns::go_answer, crate::proofs::Turns::go_content, crate::proofs::Turns::stop, crate::proofs::Turns::end))]
pub fn put_run(buf: &mut [u8], at: usize, run: Run) -> Written
    ensures { (result ≡ run_answer 0 (messages_of run) at buf.old) × (buf.new ≡ run_content (messages_of run) at buf.old) }
{
    let messages = run.meant();
    let mut next = at;
    for (written, m) in messages.iter().enumerate() {
        match put_at(&mut *buf, next, *m) {
            Ok(place) => {
                next = place;
            }
            Err(refusal) => {
                return Written {
                    written,
                    next,
                    refusal: Some(refusal),
                };
            }
        }
    }
    Written {
        written: messages.len(),
        next,
        refusal: None,
    }
}
