// Plays a script of events through one server engine and sixteen room engines, and prints every answer.
#![tactic(auto)]

mod answers; // what was answered, until it is written out
mod engines; // the server and the rooms
mod hex; // bytes as pairs of upper case digits
mod line; // which line it is
mod play; // the script, line by line
mod record_line; // the lines that read and write a record
mod reply; // what is printed for a line
mod room_line; // the lines of a room
mod room_reply; // what a room answers
mod script; // the input, line by line
mod server_line; // the lines of the server
mod server_reply; // what the server answers
mod words; // the words and numbers of a line

use answers::Answers;
use script::Script;
use std::io;

fn main(rt: HostRuntime) -> io::Result<()> {
    let mut script = Script::new(rt.stdin());
    let mut answers = Answers::new(rt.stdout());
    play::play(&mut script, &mut answers)
}
