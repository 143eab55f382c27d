// The server and the rooms.
use crate::reply::Reply;
use crate::room_line::{RoomLine, Turn};
use crate::room_reply::{EventReply, RoomReply};
use crate::server_line::ServerLine;
use crate::server_reply::ServerReply;
use refusals::Refusal;
use server::server::{Server, step_in};
use station::station::Station;
use timing::settings::Settings;

#[derive(Drop)]
pub(crate) struct Engines {
    server: Server,
    // One for each number, whatever the settings.
    rooms: [Station; Settings::STATIONS],
}

impl Engines {
    pub(crate) fn new(settings: Settings) -> Engines {
        Engines {
            server: Server::new(settings).server,
            rooms: std::array::from_fn(|number| Station::new(settings, number as u8).station),
        }
    }

    pub(crate) fn serve(&mut self, line: ServerLine) -> Reply {
        Reply::Server(ServerReply(step_in(&mut self.server, line.reading, line.event)))
    }

    pub(crate) fn turn(&mut self, line: RoomLine) -> Result<Reply, Refusal> {
        let room = &mut self.rooms[usize::from(line.room.number)];
        let reply = match line.turn {
            Turn::Event(event) => {
                let after = room.step(line.reading, event);
                *room = after.station;
                RoomReply::Event(EventReply(after.answer), after.lost, after.count)
            }
            Turn::Phase => RoomReply::Phase(room.phase(line.reading)?),
            Turn::Use(profile) => RoomReply::Use(room.may_use(line.reading, profile)?),
        };
        Ok(Reply::Room(reply))
    }
}
