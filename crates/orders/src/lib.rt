// Search orders: in which order each party tries the numbers 1 to m.
#![tactic(auto)]

pub mod card;
pub mod limits;
pub mod one_pick;
pub mod order;
pub mod picks;
mod round;
pub mod stride;
