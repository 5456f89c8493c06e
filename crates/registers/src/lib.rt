// What the controller keeps besides its string of drives: buffer, setting, running command, status, unit records; and
// what follows from these alone.
#![tactic(auto)]

mod bits;
pub mod buffer;
pub mod command;
pub mod end;
pub mod kind;
pub mod numbers;
pub mod refusal;
pub mod running;
pub mod setting;
pub mod specify;
pub mod status;
pub mod units;
