// The registers: their names, and those of a channel as numbers: the control word taken apart, and how counter and addresses go on after a word.
#![tactic(auto)]

pub mod control;
pub mod counter;
pub mod register;
#[cfg(test)]
mod tests;
pub mod update;
