// The line of an item with its newline, written to a lent buffer as far as it fits. What gives no item has no line.
ghost use Rattle.std.specs.Prelude.{◌≡◌, ◌≤◌, length};
ghost use Rattle.octets.specs.Runs.{between};
ghost use Rattle.octets.specs.Clipped.{Wrote};
ghost use Rattle.normal.specs.Inner.{PartOf, Within, line_text};

use crate::{entry, setting};
use crontab::item::Item;
use octets::write;

// Some bytes of a table.
pub fn part(s: &[u8], start: usize, end: usize) -> &[u8]
    requires { PartOf s.now start end }
    ensures { (result.now ≡ between s.now start end) × (length result.now ≤ length s.now) }
{
    &s[start..end]
}

// Writes it at a place, as far as it fits, and answers the place after it.
pub fn write(s: &[u8], item: Item, out: &mut [u8], at: usize) -> usize
    requires { Within s.now item }
    ensures { Wrote at (line_text s.now item) out.old result out.new }
{
    match item {
        Item::Nothing => at,
        Item::Setting { name, value } => {
            let name = part(s, name.start, name.end);
            let value = part(s, value.start, value.end);
            let next = setting::write(name, value, out, at);
            write::byte(out, next, b'\n')
        }
        Item::Entry(e) => {
            let command = part(s, e.start as usize, e.end as usize);
            let when = e.when;
            let next = entry::write(when, command, out, at);
            write::byte(out, next, b'\n')
        }
    }
}
