// Kinds of data that a term's nodes may hold, and what a node is worth in a situation.
#![tactic(auto)]

pub mod codes;
pub mod gearbox;
pub mod kids;
pub mod kind;
pub mod maps;
mod situation;
pub mod through_bytes;
pub mod traces;
