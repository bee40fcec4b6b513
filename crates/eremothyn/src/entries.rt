// Entries: whether one is due, when it fires next, and where it stands in the table.
ghost use Rattle.std.specs.Prelude.{◌≡◌, ◌≤◌};
ghost use Rattle.crontab.specs.Tables.{table_of, entry_in};
ghost use Rattle.eremothyn.specs.Rules.{rules_of};
ghost use Rattle.eremothyn.specs.Entries.{next_number, place_in, place_number};
ghost use Rattle.eremothyn.specs.Calls.{due_call, next_call, entry_line_call, command_offset_call, command_length_call};

use crate::answer::answer;
use crate::rules::rules_of;
use crontab::entry::Entry;
use crontab::firing;
use crontab::table::find_entry;
use refusal::Refusal;

#[unsafe(no_mangle)]
pub extern "C" fn eremothyn_due(
    table: &[u8],
    kind: u64,
    dialect: u64,
    entry: u64,
    minute: u64,
) -> u64
    ensures { result ≡ due_call table.now kind dialect entry minute }
{
    match firing::due(table, rules_of(kind, dialect), entry, minute) {
        Ok(true) => 1,
        Ok(false) => 0,
        Err(refusal) => answer(Err(refusal)),
    }
}

// The minute, or why there is none.
#[tactic(auto, unfolding(crate::specs::Entries::next_number, crate::specs::Answer::answer_of))]
fn next_number(next: Result<u64, Refusal>) -> u64
    ensures { result ≡ next_number next }
{
    match next {
        Ok(minute) => minute,
        Err(none) => answer(Err(none)),
    }
}

#[unsafe(no_mangle)]
pub extern "C" fn eremothyn_next(
    table: &[u8],
    kind: u64,
    dialect: u64,
    entry: u64,
    minute: u64,
) -> u64
    ensures { result ≡ next_call table.now kind dialect entry minute }
{
    next_number(firing::next(table, rules_of(kind, dialect), entry, minute))
}

// What is asked of where an entry stands.
// By name and no closure, as in dates.
#[derive(Clone, Copy)]
enum Place {
    Line,
    CommandOffset,
    CommandLength,
}

fn place_in(entry: Entry, what: Place) -> u64
    requires { entry.start ≤ entry.end }
    ensures { result ≡ place_in entry what }
{
    match what {
        Place::Line => entry.line as u64,
        Place::CommandOffset => entry.start as u64,
        Place::CommandLength => (entry.end - entry.start) as u64,
    }
}

fn place_number(table: &[u8], kind: u64, dialect: u64, entry: u64, what: Place) -> u64
    ensures { result ≡ place_number (entry_in (table_of (rules_of kind dialect) table.now) entry) what }
{
    match find_entry(table, rules_of(kind, dialect), entry) {
        Ok(found) => place_in(found, what),
        Err(refusal) => answer(Err(refusal)),
    }
}

#[unsafe(no_mangle)]
pub extern "C" fn eremothyn_entry_line(table: &[u8], kind: u64, dialect: u64, entry: u64) -> u64
    ensures { result ≡ entry_line_call table.now kind dialect entry }
{
    place_number(table, kind, dialect, entry, Place::Line)
}

#[unsafe(no_mangle)]
pub extern "C" fn eremothyn_command_offset(table: &[u8], kind: u64, dialect: u64, entry: u64) -> u64
    ensures { result ≡ command_offset_call table.now kind dialect entry }
{
    place_number(table, kind, dialect, entry, Place::CommandOffset)
}

#[unsafe(no_mangle)]
pub extern "C" fn eremothyn_command_length(table: &[u8], kind: u64, dialect: u64, entry: u64) -> u64
    ensures { result ≡ command_length_call table.now kind dialect entry }
{
    place_number(table, kind, dialect, entry, Place::CommandLength)
}
