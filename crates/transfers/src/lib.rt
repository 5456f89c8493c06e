// Turns of Read Data, Check, Write Data and Format over any string of drives: what they do to the drives and the buffer,
// and whether the command goes on.
#![tactic(auto)]

pub mod format;
pub mod outcome;
pub mod path;
pub mod ready;
pub mod transfer;
