// Runs a fixed stream of one kind of event through an engine, many times, so that it can be timed.
// Each line of the input is a kind (docs/ARCHITECTURE.md lists them) and how many events; printed are both, and a sum of the answers.
#![tactic(auto)]

mod ground; // settings and numbers
mod input; // the numbers of the input
mod kind; // which stream a kind is
mod rooms; // streams for a room
mod serving; // streams for a server
mod sums; // a sum of answers

use kind::Kind;
use std::io;
use std::io::{Print, Read};

// The most bytes of the input that are taken.
const BYTES: usize = 4096;

// The most lines that are taken.
const LINES: usize = 64;

fn main(rt: HostRuntime) -> io::Result<()> {
    // What the input leaves of it stays 0, which is no digit.
    let mut text = [0u8; BYTES];
    let mut rest = &mut text[..];
    io::copy(&mut rt.stdin().take(BYTES as u64), &mut rest)?;
    lines(&rt, &text)
}

// A kind and how many events, 0 where that is missing, as long as there are kinds.
fn lines(rt: &impl Print, text: &[u8]) -> io::Result<()> {
    let mut numbers = text
        .split(|byte| !byte.is_ascii_digit())
        .filter(|digits| !digits.is_empty())
        .map(input::number);
    for _ in 0..LINES {
        let Some(kind) = numbers.next() else {
            return Ok(());
        };
        let count = numbers.next().unwrap_or(0);
        let sum = Kind::of(kind).sum(count);
        println!(rt; "kind {kind} events {count} sum {sum}")?;
    }
    Ok(())
}
