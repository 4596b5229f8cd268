// The controller, awake and stopped. Both hold the table of channels and no memory. Two types and not one with a parameter: they have no call in common.
use crate::bank::Bank;

pub mod calls;

#[derive(Drop)]
pub struct Controller {
    bank: Bank,
}

// A stopped controller has one call, `wake`.
#[derive(Drop)]
pub struct Stopped {
    bank: Bank,
}
