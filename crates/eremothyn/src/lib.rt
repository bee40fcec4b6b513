// The C interface, one thin function for each call. include/eremothyn.h says to C what each answers.
#![tactic(auto)]

mod answer;
pub mod commands;
pub mod dates;
pub mod entries;
pub mod lists;
pub mod normal_forms;
pub mod owners;
pub mod queue;
pub mod record_calls;
mod rules;
pub mod settings;
pub mod tables;
