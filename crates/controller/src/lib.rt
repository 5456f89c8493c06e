// The port of a 7261 over any string of drives.
#![tactic(auto)]

pub mod controller;
