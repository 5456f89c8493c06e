// The bytes that a unit stands over: lent, owned, a cartridge's own, or any of a rack.
#![tactic(auto)]

pub mod bytes;
pub mod cells;
pub mod lent;
pub mod owned;
pub mod rack;
mod slices;
#[cfg(test)]
mod two_bytes;
