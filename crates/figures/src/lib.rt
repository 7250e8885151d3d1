// What the bench holds the definitions to: its figures, and an example shift map.
#![tactic(auto)]

pub mod figures;
pub mod pressures;
#[cfg(test)]
mod tests;
