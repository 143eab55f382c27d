// The numbers of the input, each behind whatever is no digit.

// Above it a number stays as it is, whatever digits follow.
const MOST: u64 = 1_000_000_000_000;

// One digit more.
// Kept: by hand, since a number that is too large stays as it is, where `parse` would fail.
fn grown(value: u64, digit: u8) -> u64 {
    if value > MOST {
        return value;
    }
    value * 10 + u64::from(digit.saturating_sub(b'0'))
}

// The number that some digits are.
pub(crate) fn number(digits: &[u8]) -> u64 {
    digits.iter().fold(0, |value, digit| grown(value, *digit))
}
