// What the other crates stand on: kinds and runs of bytes, sets in the bits of a word or of many, numbers in bytes, and texts written to a
// lent buffer. Texts and the search for a least number have definitions alone.
#![tactic(auto)]

pub mod bitset;
pub mod class;
pub mod little_endian;
pub mod run;
pub mod set;
pub mod write;
