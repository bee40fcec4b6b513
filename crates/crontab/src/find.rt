// One search in a table: for its count of entries, an entry by its number, or a setting by its line.
ghost use Rattle.std.specs.Prelude.{◌≡◌, cond};
ghost use Rattle.crontab.specs.Items.{items_of};
ghost use Rattle.crontab.specs.Findings.{is_wanted_setting, is_wanted_entry, is_wanted, finding_of};

use crate::item::Item;
use crate::table::{TOO_LONG, TableFault};
use crate::{MAX_TABLE, item};
use line::Rules;

// What is wanted of a table.
// Data and no closure: the definitions and laws of what is found go by it.
#[derive(Clone, Copy)]
pub enum Wanted {
    // No item, only the count of entries.
    Count,
    // The entry of a number.
    Entry(u64),
    // The setting on a line.
    SettingOn(u64),
    // The first setting from a line on, that line included.
    SettingFrom(u64),
}

// The item that was wanted, Nothing if the table has none; its line; and how many entries the table has.
#[derive(Clone, Copy)]
pub struct Finding {
    pub item: Item,
    pub line: usize,
    pub count: usize,
}

// Whether the setting of a line is wanted, after what was found so far.
fn is_wanted_setting(wanted: Wanted, found: Item, line: u64) -> bool
    ensures { result ≡ is_wanted_setting wanted found line }
{
    match wanted {
        Wanted::SettingOn(n) => line == n,
        Wanted::SettingFrom(n) => matches!(found, Item::Nothing) & (n <= line),
        Wanted::Count | Wanted::Entry(_) => false,
    }
}

// Whether the entry of a number is wanted.
fn is_wanted_entry(wanted: Wanted, number: u64) -> bool
    ensures { result ≡ is_wanted_entry wanted number }
{
    match wanted {
        Wanted::Entry(n) => number == n,
        Wanted::Count | Wanted::SettingOn(_) | Wanted::SettingFrom(_) => false,
    }
}

// Whether the item of a line is wanted, after so many entries and what was found so far.
fn is_wanted(wanted: Wanted, found: Item, line: u64, count: u64, item: Item) -> bool
    ensures { result ≡ is_wanted wanted found line count item }
{
    match item {
        Item::Setting { .. } => is_wanted_setting(wanted, found, line),
        Item::Entry(_) => is_wanted_entry(wanted, count),
        Item::Nothing => false,
    }
}

fn found_or(this: bool, item: Item, line: usize, found: Finding) -> Finding
    ensures { result ≡ cond this (record { item = item; line = line; count = 0 }) found }
{
    if this {
        return Finding {
            item,
            line,
            count: 0,
        };
    }
    found
}

// What is wanted of any bytes as a table. The walk goes on to the end: a fault refuses the table whole.
pub fn find(s: &[u8], rules: Rules, wanted: Wanted) -> Result<Finding, TableFault>
    ensures { result ≡ finding_of wanted (items_of rules s.now) }
{
    if MAX_TABLE < s.len() {
        return Err(TOO_LONG);
    }
    let mut found = Finding {
        item: Item::Nothing,
        line: 0,
        count: 0,
    };
    let mut c = item::START;
    while c.at < s.len() {
        let count = c.count as u64;
        let step = item::next_item(s, rules, c)?;
        c = step.next;
        let this = is_wanted(wanted, found.item, step.line as u64, count, step.item);
        found = found_or(this, step.item, step.line, found);
    }
    Ok(Finding {
        item: found.item,
        line: found.line,
        count: c.count,
    })
}
