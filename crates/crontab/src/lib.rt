// A table (T1 to T9), from its bytes to its entries and settings, or its one refusal.
#![tactic(auto)]

pub mod entry;
mod find;
pub mod firing;
pub mod item;
pub mod owner;
pub mod select;
pub mod setting;
pub mod table;

pub const MAX_TABLE: usize = 49152;

pub const MAX_ENTRIES: usize = 512;
