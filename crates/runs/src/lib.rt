// Calls of the port as values, so that any list of them can be made and spoken of.
#![tactic(auto)]

pub mod call;
