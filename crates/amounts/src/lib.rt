// Kinds of amount: what a kind is, the two kinds that come with the engine, and record numbers.
#![tactic(auto)]

pub mod amount;
pub mod bounds;
pub mod grades;
pub mod record_number;
pub mod shares;
#[cfg(test)]
mod tests;
