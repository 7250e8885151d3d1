// A walk's notes in the two lists of its caller: which nodes it has marked, and what each is worth.
#![tactic(auto)]

pub mod marks;
pub mod notes;
pub mod worths;
