// Work on a whole track or a whole sector of any string of drives: what its IDs show, and what Format and Write Data write.
#![tactic(auto)]

pub mod marks;
pub mod sector;
