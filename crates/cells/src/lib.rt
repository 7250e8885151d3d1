// The words of a store in lists: reading and writing one of them, one step of a party, what a Begin changes, where a walk goes.
#![tactic(auto)]

mod making;
mod one_step;
mod reading;
pub mod records;
mod starting;
mod table;
mod walking;
mod words;
