// The shared store: opening it, and a party's Begins and Turns.
#![tactic(auto)]

mod beginning;
pub mod errors;
pub mod limits;
mod open;
mod settling;
mod sizes;
pub mod store;
mod taking;
mod turning;
mod walking;
mod words;
