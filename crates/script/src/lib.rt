// A whole script: its lines, the answer to each from a memory, and the listing that they make.
#![tactic(auto)]

pub mod answer;
pub mod hexadecimal;
pub mod lines;
pub mod listing;
#[cfg(test)]
mod tests;
