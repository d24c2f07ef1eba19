// Records: the twelve-byte record format, read from the caller's bytes without a copy.
#![tactic(auto)]

pub mod counts;
pub mod fault;
mod format;
pub mod limits;
pub mod reader;
pub mod record;
#[cfg(test)]
mod tests;
