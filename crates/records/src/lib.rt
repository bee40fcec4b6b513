// What a user table means, in records (B1 to B16).
#![tactic(auto)]

mod body;
pub mod compile;
pub mod decompile;
mod kind;
mod pack;
mod record;
mod text;

// The sets and the flags of a timed entry stand before its command.
const SCHEDULE_SIZE: usize = 20;
