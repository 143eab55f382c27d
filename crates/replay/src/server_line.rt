// The lines of the server, and what a station's message asks, in the words that a room's lines share with them.
use crate::words::Words;
use modes::Mode;
use requests::Request;
use server::event::Event;

#[derive(Clone, Copy)]
pub(crate) struct ServerLine {
    pub(crate) reading: u64,
    pub(crate) event: Event,
}

impl ServerLine {
    // After the word `server`.
    pub(crate) fn parse(words: &mut Words) -> Option<ServerLine> {
        let reading = words.number()?;
        let event = match words.word()? {
            b"tick" => Event::Tick,
            name => Event::Message(words.number()?, words.number()?, request(name, words)?),
        };
        Some(ServerLine { reading, event })
    }
}

// What a message asks, by its name, with the profile and the mode after it.
pub(crate) fn request(name: &[u8], words: &mut Words) -> Option<Request> {
    Some(match name {
        b"hello" => Request::Hello,
        b"keepalive" => Request::KeepAlive,
        b"ask" => Request::Ask(words.number()?, Mode(words.number()?)),
        b"release" => Request::Release(words.number()?),
        b"keep" => Request::Keep(words.number()?),
        _ => return None,
    })
}
