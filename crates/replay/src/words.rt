// The words of a line, with one space between each and the next.

// What is left of the line, behind the words that were taken and the space after them. None behind the last word.
#[derive(Drop)]
pub(crate) struct Words<'a>(Option<&'a [u8]>);

impl<'a> Words<'a> {
    pub(crate) fn of(line: &'a [u8]) -> Words<'a> {
        Words(Some(line))
    }

    // The next word. It is empty where two spaces follow one another, and at a space at the line's front or end.
    pub(crate) fn word(&mut self) -> Option<&'a [u8]> {
        let rest = self.0?;
        let Some(length) = rest.iter().position(|byte| *byte == b' ') else {
            self.0 = None;
            return Some(rest);
        };
        self.0 = rest.get(length + 1..);
        Some(&rest[..length])
    }

    // The next word as a number in decimal that fits its type. It has a digit at least, and no sign.
    // Kept: by hand over bytes, since `parse` wants a text, and that and `split` cost a third more on a line of numbers.
    pub(crate) fn number<N: TryFrom<u64>>(&mut self) -> Option<N>
    where
        N::Error: Drop,
    {
        let word = self.word()?;
        if word.is_empty() {
            return None;
        }
        let mut value: u64 = 0;
        for byte in word {
            if !byte.is_ascii_digit() {
                return None;
            }
            value = value
                .checked_mul(10)?
                .checked_add(u64::from(byte.saturating_sub(b'0')))?;
        }
        N::try_from(value).ok()
    }

    // Whether the line has no word after those that were taken.
    pub(crate) fn is_over(&self) -> bool {
        self.0.is_none()
    }
}
