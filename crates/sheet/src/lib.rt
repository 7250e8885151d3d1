// The syntax of turn sheets, as text: what stands on a line of a sheet, and how a reply is written out.
#![tactic(auto)]

mod columns;
mod cuts;
pub mod headings;
pub mod letters;
pub mod lines;
pub mod reader;
pub mod replies;
#[cfg(test)]
mod tests;
pub mod values;
