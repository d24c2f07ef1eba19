// Reports: the text that tells which states of a record file fall, and in which round.
#![tactic(auto)]

mod lines;
pub mod report;
mod states;
mod stop;
#[cfg(test)]
mod tests;
