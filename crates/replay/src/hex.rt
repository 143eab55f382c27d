// Bytes as pairs of digits in upper case, `-` for none.
ghost use Rattle.std.specs.Prelude.{◌<◌, IfSome};

use arrayvec::ArrayVec;
use std::fmt;

// A line holds at most this many.
pub(crate) const MOST: usize = 64;

pub(crate) type Bytes = ArrayVec<u8, MOST>;

// The bytes of a word.
pub(crate) fn bytes_of(word: &[u8]) -> Option<Bytes> {
    let mut bytes = Bytes::new();
    if word == b"-".as_slice() {
        return Some(bytes);
    }
    let (pairs, rest) = word.as_chunks::<2>();
    if pairs.is_empty() || !rest.is_empty() {
        return None;
    }
    for [high, low] in pairs {
        let byte = digit(*high)? * 16 + digit(*low)?;
        bytes.try_push(byte).ok()?;
    }
    Some(bytes)
}

// Kept: a match, since the language allows upper case alone, and `to_digit` of a character takes both.
fn digit(b: u8) -> Option<u8>
    ensures { IfSome result (λ value. value < 16) }
{
    match b {
        b'0'..=b'9' => Some(b - b'0'),
        b'A'..=b'F' => Some(b - b'A' + 10),
        _ => None,
    }
}

const DIGITS: [u8; 16] = *b"0123456789ABCDEF";

// Two for each byte.
const MOST_DIGITS: usize = 2 * MOST;

// Bytes to be printed as digits, at most as many as a line holds: with more it fails.
#[derive(Clone, Copy)]
pub(crate) struct Hex<'a>(pub(crate) &'a [u8]);

impl fmt::Display for Hex<'_> {
    // Kept: all digits in one text, by hand, since a `write!` for each byte takes four times as long.
    fn fmt<W: fmt::Write>(&self, f: &mut fmt::Formatter<W>) -> fmt::Result {
        if self.0.is_empty() {
            return f.write_str("-");
        }
        let mut digits = [0; MOST_DIGITS];
        for (pair, byte) in digits.as_chunks_mut::<2>().0.iter_mut().zip(self.0) {
            *pair = [
                DIGITS[usize::from(byte / 16)],
                DIGITS[usize::from(byte % 16)],
            ];
        }
        let printed = digits
            .get(..self.0.len().saturating_mul(2))
            .ok_or(fmt::Error)?;
        f.write_str(str::from_utf8(printed).map_err(|_| fmt::Error)?)
    }
}
