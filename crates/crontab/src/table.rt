// A table whole, and one entry of it by its number.
ghost use Rattle.std.specs.Prelude.{◌≡◌};
ghost use Rattle.crontab.specs.Tables.{table_of, verdict_of, entry_in, command_in};

use crate::entry::Entry;
use crate::find::{Wanted, find};
use crate::item::Item;
use crate::{MAX_ENTRIES, MAX_TABLE, item};
use line::time::When;
use line::{Fault, Rules};
use refusal::Refusal;

// What a table means: so many entries, at the front of the array.
// An array with a count: nothing is allocated, so there is no Vec.
#[derive(Clone, Copy)]
pub struct Table {
    pub count: usize,
    pub entries: [Entry; MAX_ENTRIES],
}

// Why a table is refused, by the line and the column.
#[derive(Clone, Copy)]
pub struct TableFault {
    pub refusal: Refusal,
    pub line: usize,
    pub column: usize,
}

// Why, without where.
impl From<TableFault> for Refusal {
    ghost from_gives = { λ fault refusal. refusal ≡ fault.refusal };

    fn from(fault: TableFault) -> Refusal {
        fault.refusal
    }
}

// What stands in the place of an entry that isn't there.
const BLANK: Entry = Entry {
    when: When::Reboot,
    line: 0,
    at: 0,
    start: 0,
    end: 0,
    offset: 0,
};

pub(crate) const TOO_LONG: TableFault = TableFault {
    refusal: Refusal::TableTooLong,
    line: 0,
    column: 0,
};

// The fault of a line.
pub(crate) fn on_line(fault: Fault, line: usize) -> TableFault
    ensures { result ≡ record { refusal = fault.refusal; line = line; column = fault.column } }
{
    TableFault {
        refusal: fault.refusal,
        line,
        column: fault.column,
    }
}

// Any bytes as a table.
pub fn read(s: &[u8], rules: Rules) -> Result<Table, TableFault>
    ensures { result ≡ table_of rules s.now }
{
    if MAX_TABLE < s.len() {
        return Err(TOO_LONG);
    }
    let mut entries = [BLANK; MAX_ENTRIES];
    let mut c = item::START;
    loop {
        let count = c.count;
        let step = item::next_item(s, rules, c)?;
        c = step.next;
        match step.item {
            Item::Nothing => return Ok(Table { count, entries }),
            Item::Entry(entry) => entries[count] = entry,
            Item::Setting { .. } => {}
        }
    }
}

// Whether the bytes are a table, and how many entries it has or where its fault is. No entry is kept.
pub fn check(s: &[u8], rules: Rules) -> Result<usize, TableFault>
    ensures { result ≡ verdict_of (table_of rules s.now) }
{
    let found = find(s, rules, Wanted::Count)?;
    Ok(found.count)
}

// The entry of a number, counted from 0. No entry but that one is kept.
pub fn find_entry(s: &[u8], rules: Rules, entry: u64) -> Result<Entry, Refusal>
    ensures { result ≡ entry_in (table_of rules s.now) entry }
{
    let found = find(s, rules, Wanted::Entry(entry))?;
    let Item::Entry(e) = found.item else {
        return Err(Refusal::NoSuchEntry);
    };
    Ok(e)
}

// The command of an entry as a part of the table, empty where it is refused.
pub fn command(s: &[u8], rules: Rules, entry: u64) -> &[u8]
    ensures { result.now ≡ command_in s.now (entry_in (table_of rules s.now) entry) }
{
    let Ok(found) = find_entry(s, rules, entry) else {
        return &s[0..0];
    };
    let start = found.start as usize;
    let end = found.end as usize;
    &s[start..end]
}
