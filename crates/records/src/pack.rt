// An item as a record (B1 to B6), written at a place of a lent buffer as far as it fits. The place after it is answered. What gives no
// item has no record.
ghost use Rattle.std.specs.Prelude.{◌≡◌, ◌+◌, ◌*◌, ◌≤◌, length};
ghost use mir.Val.{bool_byte};
ghost use Rattle.octets.specs.Clipped.{Wrote};
ghost use Rattle.crontab.specs.Limits.{max_table};
ghost use Rattle.normal.specs.Meanings.{setting, entry_item};
ghost use Rattle.normal.specs.Inner.{Within};
ghost use Rattle.records.specs.Formats.{flags_of, schedule_bytes, setting_kind_of};
ghost use Rattle.records.specs.Kinds.{number_of};
ghost use Rattle.records.specs.InnerWriters.{head_of, item_record, record_part};

use crate::SCHEDULE_SIZE;
use crate::kind::Kind;
use crontab::item::Item;
use line::time::When;
use normal::text::part;
use octets::{little_endian, write};
use schedule::{Schedule, Stars};

// What stands before a body of so many bytes: the length counts the kind too.
fn write_head(kind: Kind, size: usize, out: &mut [u8], at: usize) -> usize
    requires { size ≤ 2 * max_table + 20 }
    ensures { Wrote at (head_of (number_of kind) size) out.old result out.new }
{
    let next = little_endian::write(out, at, 2 + size as u64, 2);
    little_endian::write(out, next, u16::from(kind) as u64, 2)
}

fn bit(star: bool) -> u64
    ensures { (result ≡ bool_byte star) × (result ≤ 1) }
{
    star as u64
}

fn flags(s: Stars) -> u64
    ensures { result ≡ flags_of s }
{
    let minutes = bit(s.minutes);
    let hours = bit(s.hours);
    let days = bit(s.days);
    let months = bit(s.months);
    let weekdays = bit(s.weekdays);
    minutes + 2 * hours + 4 * days + 8 * months + 16 * weekdays
}

fn write_schedule(s: Schedule, out: &mut [u8], at: usize) -> usize
    ensures { Wrote at (schedule_bytes s) out.old result out.new }
{
    let stars = s.stars;
    let at = little_endian::write(out, at, s.minutes, 8);
    let at = little_endian::write(out, at, s.hours as u64, 4);
    let at = little_endian::write(out, at, s.days as u64, 4);
    let at = little_endian::write(out, at, s.months as u64, 2);
    let at = little_endian::write(out, at, s.weekdays as u64, 1);
    little_endian::write(out, at, flags(stars), 1)
}

fn write_setting(kind: Kind, name: &[u8], value: &[u8], out: &mut [u8], at: usize) -> usize
    requires { (number_of kind ≡ setting_kind_of name.now) × (length name.now ≤ max_table) × (length value.now ≤ max_table) }
    ensures { Wrote at (item_record (setting name.now value.now)) out.old result out.new }
{
    let at = write_head(kind, 2 + name.len() + value.len(), out, at);
    let at = little_endian::write(out, at, name.len() as u64, 2);
    let at = write::copy(out, at, name);
    write::copy(out, at, value)
}

fn write_entry(when: When, command: &[u8], out: &mut [u8], at: usize) -> usize
    requires { length command.now ≤ max_table }
    ensures { Wrote at (item_record (entry_item when command.now)) out.old result out.new }
{
    match when {
        When::Reboot => {
            let next = write_head(Kind::Boot, command.len(), out, at);
            write::copy(out, next, command)
        }
        When::Timed(s) => {
            let next = write_head(Kind::Timed, SCHEDULE_SIZE + command.len(), out, at);
            let next = write_schedule(s, out, next);
            write::copy(out, next, command)
        }
    }
}

pub(crate) fn write_record(s: &[u8], item: Item, out: &mut [u8], at: usize) -> usize
    requires { (length s.now ≤ max_table) × Within s.now item }
    ensures { Wrote at (record_part s.now item) out.old result out.new }
{
    match item {
        Item::Nothing => at,
        Item::Setting { name, value } => {
            let name = part(s, name.start, name.end);
            let value = part(s, value.start, value.end);
            write_setting(Kind::of_setting(name), name, value, out, at)
        }
        Item::Entry(e) => {
            let command = part(s, e.start as usize, e.end as usize);
            let when = e.when;
            write_entry(when, command, out, at)
        }
    }
}
