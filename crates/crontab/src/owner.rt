// Who owns an entry of a table, by its number.
ghost use Rattle.std.specs.Prelude.{◌≡◌, ◌^◌, ◌≤◌, ◌<◌, length};
ghost use Rattle.line.specs.Limits.{max_line};
ghost use Rattle.crontab.specs.Owners.{shifted, owner_from, owner_of, owner_in};
ghost use Rattle.crontab.specs.Inner.{Sound};

use crate::entry::Entry;
use crate::table::find_entry;
use line::user::{NOBODY, Owner, line_owner};
use line::{Kind, Part, Rules};
use refusal::Refusal;

// A part of a line that starts at a place of the table; an absent one stays where it is.
fn shifted(part: Part, at: usize) -> Part
    requires { (at < 2 ^ 16) × (part.end ≤ max_line) }
    ensures { result ≡ shifted at part }
{
    if part.start < part.end {
        return Part {
            start: at + part.start,
            end: at + part.end,
        };
    }
    Part { start: 0, end: 0 }
}

// The owner of the entry of a line that starts at a place of the table, by the kind of table.
fn owner_from(l: &[u8], rules: Rules, at: usize) -> Owner
    requires { (length l.now ≤ max_line) × (at < 2 ^ 16) }
    ensures { result ≡ owner_from rules at l.now }
{
    match rules.kind {
        Kind::User => NOBODY,
        Kind::System => {
            let owner = line_owner(l);
            Owner {
                user: shifted(owner.user, at),
                group: shifted(owner.group, at),
                class: shifted(owner.class, at),
            }
        }
    }
}

// The owner of an entry of a table.
pub fn of_entry(s: &[u8], rules: Rules, entry: Entry) -> Owner
    requires { Sound (length s.now) entry }
    ensures { result ≡ owner_of rules s.now entry }
{
    let at = entry.at as usize;
    let end = entry.end as usize;
    owner_from(&s[at..end], rules, at)
}

// The owner of the entry of a number, counted from 0: user, group and class as parts of the table.
pub fn read(s: &[u8], rules: Rules, entry: u64) -> Result<Owner, Refusal>
    ensures { result ≡ owner_in rules s.now entry }
{
    let found = find_entry(s, rules, entry)?;
    Ok(of_entry(s, rules, found))
}
