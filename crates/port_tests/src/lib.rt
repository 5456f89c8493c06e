// Worked examples of the port: each call is made, and every answer and the status after it are compared.
#![tactic(auto)]

#[cfg(test)]
mod bench;
#[cfg(test)]
mod buffers;
#[cfg(test)]
mod commands;
#[cfg(test)]
mod motion;
#[cfg(test)]
mod reading;
#[cfg(test)]
mod writing;
