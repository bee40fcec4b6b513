// A walk over the lines of a table, one step for each.
ghost use Rattle.std.specs.Prelude.{◌≡◌, ◌+◌, ◌≤◌, ◌<◌, length, MatchResult};
ghost use Rattle.crontab.specs.Limits.{max_table};
ghost use Rattle.line.specs.Limits.{max_line};
ghost use Rattle.crontab.specs.Items.{moved, placed, last_fault};
ghost use Rattle.crontab.specs.Inner.{behind, bad_line, Reached, LineAt, StepIs, StepFault, ItemIs, ItemFault};

use crate::MAX_ENTRIES;
use crate::entry::Entry;
use crate::table::{TableFault, on_line};
use line::offset::in_force;
use line::time::When;
use line::{Fault, Line, Part, Rules};
use octets::class::Class;
use octets::run::skip;
use refusal::Refusal;

// Where a line starts, its number from 1, how many entries stand before it, and the offset from UTC that is in force.
#[derive(Clone, Copy)]
pub struct Cursor {
    pub at: usize,
    pub line: usize,
    pub count: usize,
    pub offset: i32,
}

pub const START: Cursor = Cursor {
    at: 0,
    line: 1,
    count: 0,
    offset: 0,
};

// What a line gives to its table, or the first line that isn't ignored: Nothing if there is none. Places are the table's.
#[derive(Clone, Copy)]
pub enum Item {
    Nothing,
    Setting { name: Part, value: Part },
    Entry(Entry),
}

// What the line at a cursor is, and the cursor after it.
#[derive(Clone, Copy)]
pub struct Step {
    pub item: Item,
    pub next: Cursor,
}

// The first item from a cursor on, the number of its line, and the cursor after it.
#[derive(Clone, Copy)]
pub struct NextItem {
    pub item: Item,
    pub line: usize,
    pub next: Cursor,
}

// Why a line refuses its table, and the cursor behind that line: a walk may go on past it.
#[derive(Clone, Copy)]
pub struct BadLine {
    pub fault: TableFault,
    pub next: Cursor,
}

// Why, and where.
impl From<BadLine> for TableFault {
    ghost from_gives = { λ bad fault. fault ≡ bad.fault };

    fn from(bad: BadLine) -> TableFault {
        bad.fault
    }
}

// Why, without where.
impl From<BadLine> for Refusal {
    ghost from_gives = { λ bad refusal. refusal ≡ bad.fault.refusal };

    fn from(bad: BadLine) -> Refusal {
        bad.fault.refusal
    }
}

// A part of a line that starts at a place of the table.
fn moved(part: Part, at: usize) -> Part
    requires { (at ≤ max_table) × (part.start ≤ max_line) × (part.end ≤ max_line) }
    ensures { result ≡ moved at part }
{
    Part {
        start: at + part.start,
        end: at + part.end,
    }
}

// The entry of a line that starts at a place of the table and has so many bytes.
fn placed(c: Cursor, size: usize, when: When, start: usize) -> Entry
    requires { (c.at ≤ max_table) × (c.line ≤ max_table) × (start ≤ max_line) × (size ≤ max_line) }
    ensures { result ≡ placed c.at c.line size c.offset when start }
{
    Entry {
        when,
        line: c.line as u16,
        at: c.at as u16,
        start: (c.at + start) as u16,
        end: (c.at + size) as u16,
        offset: c.offset,
    }
}

// The cursor behind a line that ends at a place.
fn behind(c: Cursor, end: usize, count: usize, offset: i32) -> Cursor
    requires { (end ≤ max_table) × (c.line ≤ max_table + 2) }
    ensures { result ≡ behind c end count offset }
{
    Cursor {
        at: end + 1,
        line: c.line + 1,
        count,
        offset,
    }
}

// The fault of the line at a cursor, which ends at a place, and the cursor behind it.
fn bad_line(c: Cursor, end: usize, fault: Fault) -> BadLine
    requires { (end ≤ max_table) × (c.line ≤ max_table + 2) }
    ensures { result ≡ bad_line c end fault }
{
    let next = behind(c, end, c.count, c.offset);
    BadLine {
        fault: on_line(fault, c.line),
        next,
    }
}

const TOO_MANY: Fault = Fault {
    refusal: Refusal::TooManyEntries,
    column: 1,
};

// The line at a cursor that ends in a newline, and the cursor behind it.
fn ended(s: &[u8], rules: Rules, c: Cursor, stop: usize, end: usize) -> Result<Step, BadLine>
    requires { LineAt s.now c stop end × (end < length s.now) }
    ensures { MatchResult result (StepIs rules s.now c) (StepFault rules s.now c) }
{
    let at = c.at;
    let line = match line::judge(&s[at..end], rules, stop - at) {
        Ok(line) => line,
        Err(fault) => return Err(bad_line(c, end, fault)),
    };
    match line {
        Line::Ignored => Ok(Step {
            item: Item::Nothing,
            next: behind(c, end, c.count, c.offset),
        }),
        Line::Setting { name, value, zone } => Ok(Step {
            item: Item::Setting {
                name: moved(name, at),
                value: moved(value, at),
            },
            next: behind(c, end, c.count, in_force(zone, c.offset)),
        }),
        Line::Entry { when, start } => {
            if c.count == MAX_ENTRIES {
                return Err(bad_line(c, end, TOO_MANY));
            }
            Ok(Step {
                item: Item::Entry(placed(c, end - at, when, start)),
                next: behind(c, end, c.count + 1, c.offset),
            })
        }
    }
}

// The fault of a last line without a newline, which has so many bytes and stands behind so many entries.
#[tactic(auto, unfolding(crate::specs::Items::last_fault))]
fn last_fault(line: Result<Line, Fault>, size: usize, count: usize) -> Fault
    requires { size ≤ max_table }
    ensures { result ≡ last_fault size count line }
{
    let cut = Fault {
        refusal: Refusal::CutTable,
        column: size + 1,
    };
    match line {
        Err(fault) => fault,
        Ok(Line::Entry { .. }) => {
            if count < MAX_ENTRIES {
                return cut;
            }
            TOO_MANY
        }
        Ok(_) => cut,
    }
}

// The fault of the line at a cursor that ends where the table does, with no newline, and the cursor behind it.
fn last(s: &[u8], rules: Rules, c: Cursor, stop: usize) -> BadLine
    requires { LineAt s.now c stop (length s.now) }
    ensures { StepFault rules s.now c result }
{
    let at = c.at;
    let end = s.len();
    let line = line::judge(&s[at..end], rules, stop - at);
    bad_line(c, end, last_fault(line, end - at, c.count))
}

// The line at a cursor. One search finds the line's end and its first forbidden byte.
pub fn advance(s: &[u8], rules: Rules, c: Cursor) -> Result<Step, BadLine>
    requires { Reached s.now c × (c.at < length s.now) }
    ensures { MatchResult result (StepIs rules s.now c) (StepFault rules s.now c) }
{
    let stop = skip(s, c.at, Class::InLine);
    let end = skip(s, stop, Class::Not(b'\n'));
    if end < s.len() {
        return ended(s, rules, c, stop, end);
    }
    Err(last(s, rules, c, stop))
}

// The first item from a cursor on, or the fault before it: ignored lines are skipped.
pub fn next_item(s: &[u8], rules: Rules, from: Cursor) -> Result<NextItem, BadLine>
    requires { Reached s.now from }
    ensures { MatchResult result (ItemIs rules s.now from) (ItemFault rules s.now from) }
{
    let mut c = from;
    while c.at < s.len() {
        let step = advance(s, rules, c)?;
        let item = step.item;
        let Item::Nothing = item else {
            return Ok(NextItem {
                item,
                line: c.line,
                next: step.next,
            });
        };
        c = step.next;
    }
    Ok(NextItem {
        item: Item::Nothing,
        line: c.line,
        next: c,
    })
}
