// Memories of 24-bit words in the spaces X, Y and P: the interface `Memory`, and the memories that meet it.
#![tactic(auto)]

pub mod border;
pub mod flat;
pub mod interface;
pub mod packed;
pub mod place;
pub mod refusal;
#[cfg(test)]
mod tests;
