// The writer of the message record.
#![tactic(auto)]

mod put; // one record
mod run; // several records, one after another

pub use put::{put_at, put_record};
pub use run::{Run, Written, put_run};
