// What was answered, and is not written out yet.
use std::fmt::Write as _;
use std::io::{Cursor, Write};
use std::{fmt, io};

// How much is written at once, at the most.
const LARGE: usize = 65_536;

// No answer is longer, its line end included. The longest is that of a refused `write` line: 64 bytes as pairs of digits.
const LONGEST: usize = 256;

#[derive(Drop)]
pub(crate) struct Answers<W> {
    to: W,
    waiting: Waiting,
}

// What waits, as a place for text. Kept: an array and no `BufWriter`, whose memory comes from the heap, and which cuts an answer where it
// is full; a type of its own, so that `writeln!` puts each text there without an adapter between.
#[derive(Drop)]
struct Waiting(Cursor<[u8; LARGE]>);

impl fmt::Write for Waiting {
    fn write_str(&mut self, text: &str) -> fmt::Result {
        self.0.write_all(text.as_bytes()).map_err(|_| fmt::Error)
    }
}

impl<W: Write> Answers<W> {
    pub(crate) fn new(to: W) -> Answers<W> {
        Answers {
            to,
            waiting: Waiting(Cursor::new([0; LARGE])),
        }
    }

    // An answer, on a line of its own. Answers are written out whole, as soon as the longest might not fit behind them.
    pub(crate) fn put<T: fmt::Display>(&mut self, answer: &T) -> io::Result<()> {
        // None fails: the longest always fits into what is free.
        if writeln!(self.waiting, "{answer}").is_err() {
            return Err(io::ErrorKind::WriteZero.into());
        }
        if LARGE - LONGEST < self.used() {
            self.flush()?;
        }
        Ok(())
    }

    // How many bytes wait.
    fn used(&self) -> usize {
        self.waiting.0.position() as usize
    }

    // Writes out what waits.
    pub(crate) fn flush(&mut self) -> io::Result<()> {
        let used = self.used();
        if let Some(waiting) = self.waiting.0.get_ref().get(..used) {
            self.to.write_all(waiting)?;
        }
        self.waiting.0.set_position(0);
        Ok(())
    }
}
