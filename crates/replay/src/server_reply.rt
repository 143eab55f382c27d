// What the server answers.
use server::event::Answer;
use std::fmt;

#[derive(Clone, Copy)]
pub(crate) struct ServerReply(pub(crate) Answer);

impl fmt::Display for ServerReply {
    fn fmt<W: fmt::Write>(&self, f: &mut fmt::Formatter<W>) -> fmt::Result {
        match self.0 {
            Answer::Done => f.write_str("ack done"),
            Answer::Granted(profile, mode) => write!(f, "ack granted {profile} {}", mode.0),
            Answer::Wait(profile, mode, mask, count) => {
                write!(
                    f,
                    "ack wait {profile} demand {} mask {mask} count {count}",
                    mode.0
                )
            }
            Answer::InUse(profile) => write!(f, "ack inuse {profile}"),
            Answer::Nack(detail) => write!(f, "nack {detail}"),
            Answer::Ticked(freed, started) => write!(f, "tick freed {freed} started {started}"),
            Answer::Refused(refusal) => refusal.fmt(f),
        }
    }
}
