// The model of the shared store: the types that the program and the law share, and what is proved of every run.
#![tactic(auto)]

pub mod calls;
pub mod changes;
pub mod ending;
pub mod entries;
pub mod existing;
pub mod law;
pub mod nodes;
pub mod outcomes;
pub mod party;
pub mod place;
pub mod running;
pub mod shown;
pub mod sizes;
pub mod trail;
pub mod tray;
pub mod words;
