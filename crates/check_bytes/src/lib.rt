// Check bytes: the remainder of a byte string, as a polynomial over GF(2), by a generator polynomial.
#![tactic(auto)]

pub mod check;
pub mod crc;
pub mod kind;
pub mod lrc;
pub mod rule;
pub mod scheme;
mod table;
pub mod theorems;
