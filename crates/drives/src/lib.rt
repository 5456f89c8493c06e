// Strings of drives: what hangs behind the controller, behind one interface.
#![tactic(auto)]

pub mod bay;
pub mod collar;
pub mod geometry;
mod lent;
pub mod numbers;
pub mod pair;
pub mod parts;
pub mod string;
