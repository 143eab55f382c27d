// How a row is printed, and in it what the engines answer.
use record::Message;
use refusals::Refusal;
use server::event::Answer;
use std::io::Print;
use std::{fmt, io};
use timing::settings::Phase;

// A row: what is asked, what it should be, and what it was.
pub(crate) fn row(
    rt: &impl Print,
    name: &str,
    asked: impl fmt::Display + Drop,
    should: &str,
    was: impl fmt::Display + Drop,
) -> io::Result<()> {
    println!(rt; "{name} {asked}: should be {should}, was {was}")
}

// An answer, or why it is refused.
#[derive(Drop)]
pub(crate) struct Told<T>(pub(crate) Result<T, Refusal>);

impl<T: fmt::Display> fmt::Display for Told<T> {
    fn fmt<W: fmt::Write>(&self, f: &mut fmt::Formatter<W>) -> fmt::Result {
        match &self.0 {
            Ok(answer) => answer.fmt(f),
            Err(refusal) => refusal.fmt(f),
        }
    }
}

// The number of a phase, from 1 on; none is out.
#[derive(Drop)]
pub(crate) struct AtPhase(pub(crate) Option<Phase>);

impl fmt::Display for AtPhase {
    fn fmt<W: fmt::Write>(&self, f: &mut fmt::Formatter<W>) -> fmt::Result {
        match self.0 {
            Some(phase) => write!(f, "{}", phase.number()),
            None => write!(f, "out"),
        }
    }
}

// The bytes of a record in upper case, a space between two.
#[derive(Drop)]
pub(crate) struct Record(pub(crate) [u8; Message::LENGTH]);

impl fmt::Display for Record {
    fn fmt<W: fmt::Write>(&self, f: &mut fmt::Formatter<W>) -> fmt::Result {
        for (i, byte) in self.0.iter().enumerate() {
            let space = if i == 0 { "" } else { " " };
            write!(f, "{space}{byte:02X}")?;
        }
        Ok(())
    }
}

#[derive(Drop)]
pub(crate) struct Served(pub(crate) Answer);

impl fmt::Display for Served {
    fn fmt<W: fmt::Write>(&self, f: &mut fmt::Formatter<W>) -> fmt::Result {
        match self.0 {
            Answer::Done => write!(f, "done"),
            Answer::Granted(profile, mode) => write!(f, "granted {profile} mode {}", mode.0),
            Answer::Wait(profile, _, mask, count) => {
                write!(f, "wait {profile} mask {mask} count {count}")
            }
            Answer::InUse(profile) => write!(f, "in use {profile}"),
            Answer::Nack(detail) => write!(f, "NACK {detail}"),
            Answer::Ticked(freed, started) => write!(f, "freed {freed} started {started}"),
            Answer::Refused(refusal) => refusal.fmt(f),
        }
    }
}
