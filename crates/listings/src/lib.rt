// Listings: the text that tells what a record file holds.
#![tactic(auto)]

mod lines;
pub mod list;
#[cfg(test)]
mod tests;
