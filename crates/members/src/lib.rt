// What the server knows of its stations: which are live, and their marks on a profile; a set of them as a mask.
#![tactic(auto)]

pub mod mark;
pub mod member;
