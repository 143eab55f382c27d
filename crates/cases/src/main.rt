// 'Checked by hand': every row, run through the engines' public functions. A line for each, with what it should be and what it was.
#![tactic(auto)]

mod say; // how a row is printed
mod story; // the rows of a server

use modes::Mode;
use record::Message;
use refusals::Refusal;
use say::{AtPhase, Record, Told, row};
use station::event::{Ack, Event, Request};
use station::station::Station;
use std::io;
use std::io::Print;
use timing::lease::Lease;
use timing::settings::Settings;

fn main(rt: HostRuntime) -> io::Result<()> {
    waits(&rt)?;
    phases(&rt)?;
    left(&rt)?;
    records(&rt)?;
    story::played(&rt)
}

// Most rows are about these.
fn usual() -> Settings {
    Settings::new(4, 2, 2, 2, 1, 10, 5, 2, 1)
}

// The wait of four lengths and a rate allowance.
fn waits(rt: &impl Print) -> io::Result<()> {
    let rows = [
        (Settings::new(1, 1, 1, 1, 1, 3, 5, 2, 1), "7"),
        (usual(), "12"),
        (Settings::new(4, 1, 1, 1, 1, 10, 5, 2, 1), "9"),
        (
            Settings::new(7500, 7500, 7500, 7500, 1, 1000, 5, 2, 1),
            "30031",
        ),
        (
            Settings::new(2500, 2500, 2500, 2500, 0, 1, 5, 2, 1),
            "10001",
        ),
    ];
    for (settings, should) in rows {
        row(
            rt,
            "wait of lease",
            settings.lease(),
            should,
            settings.wait(),
        )?;
    }
    Ok(())
}

// A station whose lease starts at 100.
fn leased() -> Station {
    let new = Station::new(usual(), 0).station;
    let greeted = new.step(100, Event::Send(Request::Hello)).station;
    greeted.step(100, Event::Ack(0, 1, Ack::Done)).station
}

fn phases(rt: &impl Print) -> io::Result<()> {
    let room = leased();
    let rows = [
        (103, "1"),
        (104, "2"),
        (106, "3"),
        (108, "4"),
        (109, "4"),
        (110, "out"),
    ];
    for (reading, should) in rows {
        let phase = room.phase(reading).map(AtPhase);
        row(rt, "phase at", reading, should, Told(phase))?;
    }
    Ok(())
}

// Of a lease of 10 ticks that starts at 100.
fn left(rt: &impl Print) -> io::Result<()> {
    for (reading, should) in [(110, "0"), (111, "-1")] {
        let ticks = Lease::left(100, 10, reading);
        row(rt, "ticks left at", reading, should, Told(ticks))?;
    }
    Ok(())
}

// Station 3 asks number 258, profile 5, in a mode.
fn asked(mode: u8) -> Message {
    Message {
        kind: Message::ASK,
        station: 3,
        number: 258,
        profile: 5,
        mode,
        detail: Message::NO_DETAIL,
    }
}

fn written(mode: u8) -> Result<[u8; Message::LENGTH], Refusal> {
    let mut bytes = [0u8; Message::LENGTH];
    writer::put_record(&mut bytes, asked(mode))?;
    Ok(bytes)
}

fn records(rt: &impl Print) -> io::Result<()> {
    let rows = [
        (Mode::W.0, "B7 1E 03 03 00 00 01 02 05 04 00"),
        (7, "refused 18"),
    ];
    for (mode, should) in rows {
        let record = written(mode).map(Record);
        row(rt, "record in mode", mode, should, Told(record))?;
    }
    Ok(())
}
