// Text: words, decimal numbers and hexadecimal bytes, written into the caller's bytes.
#![tactic(auto)]

mod hex;
pub mod page;
pub mod piece;
pub mod refused;
pub mod room;
#[cfg(test)]
mod tests;
