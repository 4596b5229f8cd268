// The driver of one controller and one memory: it makes any call and answers it.
#![tactic(auto)]

pub mod awake;
pub mod call;
pub mod device;
mod ending;
#[cfg(test)]
mod tests;
