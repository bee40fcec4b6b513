// The entries of a table that a question is about, a bit for each: no entry is kept.
ghost use Rattle.std.specs.Prelude.{◌≡◌, cond};
ghost use Rattle.octets.specs.BitSets.{with_member};
ghost use Rattle.schedule.specs.Local.{OffsetInRange};
ghost use Rattle.crontab.specs.Tables.{table_of};
ghost use Rattle.crontab.specs.Selections.{is_selected, date_under, selected_in};

use crate::entry::Entry;
use crate::item::Item;
use crate::{MAX_ENTRIES, MAX_TABLE, firing, item};
use calendar::{Date, LAST_MINUTE};
use line::Rules;
use octets::bitset;
use refusal::Refusal;
use schedule::jump::Case;
use schedule::local::local_date;

// Which entries are asked for.
// Data and no closure: the definitions and laws of a selection go by it.
#[derive(Clone, Copy)]
pub enum Selector {
    // The boot jobs.
    AtBoot,
    // Those that an announced minute calls, by its case; none if it is off the calendar.
    At { minute: u64, case: Case },
}

pub const WORDS: usize = MAX_ENTRIES / 64;

// How many entries a table has, and those that were asked for, by a bit for each number.
#[derive(Clone, Copy)]
pub struct Selection {
    pub count: usize,
    pub members: [u64; WORDS],
}

// The local date of the minute that is asked for, under an offset.
fn date_under(which: Selector, offset: i32) -> Option<Date>
    requires { OffsetInRange offset }
    ensures { result ≡ date_under which offset }
{
    let Selector::At { minute, .. } = which else {
        return None;
    };
    if LAST_MINUTE < minute {
        return None;
    }
    local_date(offset, minute)
}

// The same under the next offset: it is worked out again only where that is another.
fn moved_on(which: Selector, date: Option<Date>, offset: i32, next: i32) -> Option<Date>
    requires { OffsetInRange offset × OffsetInRange next × (date ≡ date_under which offset) }
    ensures { result ≡ date_under which next }
{
    if offset == next {
        return date;
    }
    date_under(which, next)
}

// Whether an entry is chosen, by the local date under its offset.
fn is_selected(entry: Entry, which: Selector, date: Option<Date>) -> bool
    requires { OffsetInRange entry.offset × (date ≡ date_under which entry.offset) }
    ensures { result ≡ is_selected which entry }
{
    match which {
        Selector::AtBoot => firing::is_boot(entry),
        Selector::At { minute, case } => {
            if LAST_MINUTE < minute {
                return false;
            }
            firing::is_called(entry, minute, case, date)
        }
    }
}

// Marks n, if it is chosen.
pub fn add_if(members: &mut [u64; WORDS], n: usize, chosen: bool)
    ensures { members.new ≡ cond chosen (with_member members.old n) members.old }
{
    if chosen {
        bitset::add(members, n);
    }
}

// The entries of any bytes as a table.
pub fn read(s: &[u8], rules: Rules, which: Selector) -> Result<Selection, Refusal>
    ensures { result ≡ selected_in which (table_of rules s.now) }
{
    if MAX_TABLE < s.len() {
        return Err(Refusal::TableTooLong);
    }
    let mut members = [0u64; WORDS];
    let mut c = item::START;
    let mut date = date_under(which, 0);
    loop {
        let count = c.count;
        let under = date;
        let offset = c.offset;
        let step = item::next_item(s, rules, c)?;
        c = step.next;
        date = moved_on(which, under, offset, c.offset);
        match step.item {
            Item::Nothing => return Ok(Selection { count, members }),
            Item::Entry(entry) => add_if(&mut members, count, is_selected(entry, which, under)),
            Item::Setting { .. } => {}
        }
    }
}
