// Which line it is, and what stands in it.
use crate::record_line::{ReadLine, WriteLine};
use crate::room_line::RoomLine;
use crate::server_line::ServerLine;
use crate::words::Words;
use timing::settings::Settings;

#[derive(Drop)]
pub(crate) enum Line {
    // An empty line or a comment.
    Silent,
    Settings(Settings),
    Server(ServerLine),
    Room(RoomLine),
    // The last wide reading, and the counter.
    Widen {
        last: u64,
        counter: u32,
    },
    // The ticks left of a lease.
    Left {
        start: u64,
        length: u64,
        reading: u64,
    },
    Read(ReadLine),
    Write(WriteLine),
}

impl Line {
    // The most bytes of a line. A comment may have any number of them.
    pub(crate) const LONGEST: usize = 1023;

    // What a line says, or nothing where it has no form of the language.
    pub(crate) fn of(line: &[u8]) -> Option<Line> {
        if let [] | [b'#', ..] = line {
            return Some(Line::Silent);
        }
        if Line::LONGEST < line.len() {
            return None;
        }
        let mut words = Words::of(line);
        let said = Line::parse(&mut words)?;
        words.is_over().then_some(said)
    }

    // By its first word. Each form takes the words that it has, so that a word left over makes a bad line.
    fn parse(words: &mut Words) -> Option<Line> {
        Some(match words.word()? {
            b"settings" => Line::Settings(settings(words)?),
            b"server" => Line::Server(ServerLine::parse(words)?),
            b"room" => Line::Room(RoomLine::parse(words)?),
            b"widen" => Line::Widen {
                last: words.number()?,
                counter: words.number()?,
            },
            b"left" => Line::Left {
                start: words.number()?,
                length: words.number()?,
                reading: words.number()?,
            },
            b"read" => Line::Read(ReadLine::parse(words)?),
            b"write" => Line::Write(WriteLine::parse(words)?),
            _ => return None,
        })
    }
}

// The nine numbers, whatever they are.
fn settings(words: &mut Words) -> Option<Settings> {
    Some(Settings::new(
        words.number()?,
        words.number()?,
        words.number()?,
        words.number()?,
        words.number()?,
        words.number()?,
        words.number()?,
        words.number()?,
        words.number()?,
    ))
}
