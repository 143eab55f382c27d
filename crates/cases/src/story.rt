// Two stations and one profile: a holder that falls silent, times out and is freed.
use crate::say::{Served, row};
use crate::usual;
use modes::Mode;
use server::event::{Event, Request};
use server::server::Server;
use std::io;
use std::io::Print;

pub(crate) fn played(rt: &impl Print) -> io::Result<()> {
    let mut server = Server::new(usual()).server;
    let rows = [
        (0, Event::Message(0, 1, Request::Hello), "done"),
        (0, Event::Message(1, 1, Request::Hello), "done"),
        (
            0,
            Event::Message(0, 2, Request::Ask(0, Mode::X)),
            "granted 0 mode 6",
        ),
        (
            3,
            Event::Message(1, 2, Request::Ask(0, Mode::R)),
            "wait 0 mask 1 count 1",
        ),
        (4, Event::Tick, "freed 0 started 0"),
        (5, Event::Tick, "freed 0 started 0"),
        (6, Event::Tick, "freed 0 started 0"),
        (7, Event::Tick, "freed 0 started 0"),
        (8, Event::Tick, "freed 0 started 1"),
        (9, Event::Message(0, 3, Request::KeepAlive), "NACK 0"),
        (19, Event::Tick, "freed 0 started 0"),
        (20, Event::Tick, "freed 1 started 0"),
        (
            20,
            Event::Message(1, 3, Request::Ask(0, Mode::R)),
            "granted 0 mode 2",
        ),
    ];
    for (reading, event, should) in rows {
        let served = server.step(reading, event);
        server = served.server;
        row(rt, "at", reading, should, Served(served.answer))?;
    }
    Ok(())
}
