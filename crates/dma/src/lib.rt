// The six-channel DMA controller: its table of channels, and its calls.
#![tactic(auto)]

pub mod arbitration;
mod bank;
pub mod cases;
pub mod channel;
pub mod controller;
pub mod masks;
pub mod register;
pub mod row;
pub mod service;
mod serving;
mod setting;
