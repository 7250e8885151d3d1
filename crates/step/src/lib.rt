// One step of a running call: which shared word it looks at, and what it decides on the word that is there.
#![tactic(auto)]

pub mod address;
pub mod decide;
mod decisions;
mod kid;
mod linking;
mod reading;
