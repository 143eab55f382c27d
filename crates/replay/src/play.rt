// The script, played line by line.
use crate::answers::Answers;
use crate::engines::Engines;
use crate::line::Line;
use crate::reply::{Fault, Reply};
use crate::script::Script;
use std::io;
use std::io::{Read, Write};
use timing::lease::Lease;
use timing::reading::Reading;
use timing::settings::Settings;

// Before the first settings line there are no engines.
#[derive(Drop)]
struct Player {
    engines: Option<Engines>,
}

impl Player {
    // This stands apart, so that no other line pays for the memory in which new engines are put together.
    #[cold]
    #[inline(never)]
    fn set(&mut self, settings: Settings) {
        self.engines = Some(Engines::new(settings));
    }

    fn engines(&mut self) -> Result<&mut Engines, Fault> {
        self.engines.as_mut().ok_or(Fault::NoSettings)
    }

    // What is printed for a line, if anything is.
    fn reply(&mut self, line: &[u8]) -> Result<Option<Reply>, Fault> {
        let reply = match Line::of(line).ok_or(Fault::BadLine)? {
            Line::Silent => return Ok(None),
            Line::Settings(settings) => {
                self.set(settings);
                return Ok(None);
            }
            Line::Server(line) => self.engines()?.serve(line),
            Line::Room(line) => self.engines()?.turn(line)?,
            Line::Widen { last, counter } => Reply::Reading(Reading::widen(last, counter)?),
            Line::Left {
                start,
                length,
                reading,
            } => Reply::Ticks(Lease::left(start, length, reading)?),
            Line::Read(line) => line.reply()?,
            Line::Write(line) => line.reply(),
        };
        Ok(Some(reply))
    }
}

// Lines are counted so that this ends whatever the input.
pub(crate) fn play<R: Read + Drop, W: Write + Drop>(
    script: &mut Script<R>,
    answers: &mut Answers<W>,
) -> io::Result<()> {
    let mut player = Player { engines: None };
    for _ in 0..u64::MAX {
        let Some(line) = script.next_line(answers)? else {
            break;
        };
        match player.reply(line) {
            Ok(Some(reply)) => answers.put(&reply)?,
            Ok(None) => {}
            Err(fault) => answers.put(&fault)?,
        }
    }
    answers.flush()
}
