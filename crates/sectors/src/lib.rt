// Work on one sector of any string of drives: its ID, its checks, and the search for it on a track.
#![tactic(auto)]

pub mod address;
pub mod field;
pub mod id;
pub mod search;
