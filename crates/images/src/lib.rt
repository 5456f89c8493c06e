// Images: a unit over memory of the caller, with the check of its trailer.
#![tactic(auto)]

pub mod blank;
pub mod image;
pub mod layers;
pub mod refusal;
pub mod trailer;
