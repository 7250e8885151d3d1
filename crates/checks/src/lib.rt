// What a Begin and a Turn are refused for, each fault in the one order in which it is looked at.
#![tactic(auto)]

pub mod begins;
mod calls;
mod makes;
mod refuse;
mod slots;
pub mod turns;
mod walks;
