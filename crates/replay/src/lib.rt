// Carries a turn sheet out on a store, line by line, and gives the replies as text.
#![tactic(auto)]

mod held;
pub mod numbers;
pub mod one_text;
mod opening;
pub mod replaying;
mod replies;
pub mod requests;
mod turning;
