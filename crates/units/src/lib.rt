// Single units over a row of bytes: an image over memory of the caller, and the cartridge.
#![tactic(auto)]

pub mod layout;
pub mod unit;
