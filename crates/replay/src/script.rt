// The script, line by line. It may have any length, and so may a line of it, but only the front of a line is kept.
use crate::answers::Answers;
use crate::line::Line;
use arrayvec::ArrayVec;
use std::io;
use std::io::{Read, Write};

// How many bytes of a line are kept: one more than a line may have, so that a longer one is seen to be too long.
const KEPT: usize = Line::LONGEST + 1;

// How much is read at once, at the most.
const LARGE: usize = 65_536;

#[derive(Drop)]
pub(crate) struct Script<R> {
    from: R,
    // What was read last, and where in it the bytes that are not taken yet begin and end.
    // Kept: two places beside an array, since the memory of a `BufReader` comes from the heap.
    chunk: [u8; LARGE],
    at: usize,
    end: usize,
    line: ArrayVec<u8, KEPT>,
    // Whether a read gave nothing. Kept: a flag, since the last line is still told then, and reading again would wait on a terminal.
    over: bool,
}

impl<R: Read> Script<R> {
    pub(crate) fn new(from: R) -> Script<R> {
        Script {
            from,
            chunk: [0; LARGE],
            at: 0,
            end: 0,
            line: ArrayVec::new(),
            over: false,
        }
    }

    // The next line, without its end. Where the input ends, so does its last line, with or without a line end.
    // What was answered is written out before more input is waited for. Reads are counted so that this ends whatever the input.
    pub(crate) fn next_line<W: Write>(
        &mut self,
        answers: &mut Answers<W>,
    ) -> io::Result<Option<&[u8]>> {
        if self.over {
            return Ok(None);
        }
        self.line.clear();
        for _ in 0..u64::MAX {
            if self.take_line() {
                break;
            }
            answers.flush()?;
            if !self.refill()? {
                self.over = true;
                break;
            }
        }
        Ok(Some(self.line.as_slice()))
    }

    // Goes on with the line, up to its end or to the end of what was read: whether it is whole.
    fn take_line(&mut self) -> bool {
        let at = self.at;
        let end = self.end;
        // Both are always places in the chunk. No contract says so, so the range is asked for, and the sums below saturate.
        let rest = self.chunk.get(at..end).unwrap_or_default();
        let (part, whole) = match rest.iter().position(|byte| *byte == b'\n') {
            Some(length) => (&rest[..length], true),
            None => (rest, false),
        };
        let length = part.len();
        // What does not fit any more is dropped: such a line is too long already.
        let kept = length.min(self.line.remaining_capacity());
        let _fits = self.line.try_extend_from_slice(&part[..kept]);
        self.at = if whole {
            at.saturating_add(length).saturating_add(1)
        } else {
            end
        };
        whole
    }

    // Whether there was more to read.
    fn refill(&mut self) -> io::Result<bool> {
        let end = self.from.read(&mut self.chunk)?;
        self.at = 0;
        self.end = end;
        Ok(end != 0)
    }
}
