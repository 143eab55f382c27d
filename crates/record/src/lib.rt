// The message record: eleven bytes, what they may say and how they are read. The writer is a crate of its own.
#![tactic(auto)]

mod allow; // which messages the record allows
mod message; // a message's six numbers, and the record's numbers by name
mod read; // what stands at a place

pub use allow::allowed;
pub use message::Message;
pub use read::record_at;
