// The script language: its forms, and reading one line of a script.
#![tactic(auto)]

pub mod form;
pub mod reading;
mod scan;
#[cfg(test)]
mod tests;
