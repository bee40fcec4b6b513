// Lists of firings (I1 to I5), of one entry or of a whole table, in buffers of numbers that the caller lends.
#![tactic(auto)]

mod after;
mod entry;
mod merge;
mod tree;

ghost use Rattle.std.specs.Prelude.{◌≡◌};
ghost use Rattle.crontab.specs.Tables.{table_of};
ghost use Rattle.firings.specs.Calls.{firings_in, merged_in};

use calendar::LAST_MINUTE;
use crontab::firing::is_boot;
use crontab::table;
use line::Rules;
use refusal::Refusal;

// What was filled.
#[derive(Clone, Copy, Debug, PartialEq, Eq)]
pub enum Filled {
    // So many, and that is all.
    All(usize),
    // So many, and more remain.
    More(usize),
}

// The firings of an entry after minute a and up to minute b, at the front of a run.
pub fn of_entry(
    bytes: &[u8],
    rules: Rules,
    number: u64,
    a: u64,
    b: u64,
    run: &mut [u32],
) -> Result<Filled, Refusal>
    ensures answer { result ≡ (firings_in (table_of rules bytes.now) number a b run.old).answer }
    ensures run { run.new ≡ (firings_in (table_of rules bytes.now) number a b run.old).run }
{
    let found = table::find_entry(bytes, rules, number)?;
    if LAST_MINUTE < a {
        return Err(Refusal::NotOnCalendar);
    }
    if LAST_MINUTE < b {
        return Err(Refusal::NotOnCalendar);
    }
    if is_boot(found) {
        return Err(Refusal::AtBootOnly);
    }
    Ok(entry::fill(found, a, b, run))
}

// The firings of a table after minute a and up to minute b, by minute and then entry, at the fronts of two runs; the shorter counts.
pub fn merged(
    bytes: &[u8],
    rules: Rules,
    a: u64,
    b: u64,
    minutes: &mut [u32],
    entries: &mut [u16],
) -> Result<Filled, Refusal>
    ensures answer { result ≡ (merged_in (table_of rules bytes.now) a b minutes.old entries.old).answer }
    ensures minutes { minutes.new ≡ (merged_in (table_of rules bytes.now) a b minutes.old entries.old).minutes }
    ensures entries { entries.new ≡ (merged_in (table_of rules bytes.now) a b minutes.old entries.old).entries }
{
    let read = table::read(bytes, rules)?;
    if LAST_MINUTE < a {
        return Err(Refusal::NotOnCalendar);
    }
    if LAST_MINUTE < b {
        return Err(Refusal::NotOnCalendar);
    }
    Ok(merge::fill(read, a, b, minutes, entries))
}
