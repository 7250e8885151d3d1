// A store with the lists that its parties lend it, and the commands that are carried out on it.
#![tactic(auto)]

mod commands;
mod lending;
pub mod lists;
mod opening;
pub mod perform;
mod reading;
pub mod session;
