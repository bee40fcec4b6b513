// An entry's line (P3), `@reboot` or five fields and then the raw command, written to a lent buffer as far as it fits.
ghost use Rattle.std.specs.Prelude.{◌≤◌};
ghost use Rattle.octets.specs.Clipped.{Wrote};
ghost use Rattle.field.specs.Inner.{InWord};
ghost use Rattle.field.specs.Written.{field_text};
ghost use Rattle.normal.specs.Meanings.{entry_item};
ghost use Rattle.normal.specs.Texts.{schedule_text, item_text};
ghost use Rattle.normal.specs.Inner.{spaced};

use field::{Limits, format};
use line::time::When;
use octets::write;
use schedule::Schedule;

const REBOOT: [u8; 8] = *b"@reboot ";

// A field, and a space behind it.
fn write_field(limits: Limits, set: u64, star: bool, out: &mut [u8], at: usize) -> usize
    requires { InWord limits × (limits.bits ≤ 64) }
    ensures { Wrote at (spaced (field_text limits set star)) out.old result out.new }
{
    let next = format::write(limits, set, star, out, at);
    write::byte(out, next, b' ')
}

// All five, with a space behind each.
fn write_schedule(s: Schedule, out: &mut [u8], at: usize) -> usize
    ensures { Wrote at (spaced (schedule_text s)) out.old result out.new }
{
    let stars = s.stars;
    let at = write_field(field::MINUTE, s.minutes, stars.minutes, out, at);
    let at = write_field(field::HOUR, s.hours as u64, stars.hours, out, at);
    let at = write_field(field::DAY, s.days as u64, stars.days, out, at);
    let at = write_field(field::MONTH, s.months as u64, stars.months, out, at);
    write_field(field::WEEKDAY, s.weekdays as u64, stars.weekdays, out, at)
}

// Writes it at a place, as far as it fits, and answers the place after it.
pub fn write(when: When, command: &[u8], out: &mut [u8], at: usize) -> usize
    ensures { Wrote at (item_text (entry_item when command.now)) out.old result out.new }
{
    match when {
        When::Reboot => {
            let next = write::copy(out, at, &REBOOT);
            write::copy(out, next, command)
        }
        When::Timed(s) => {
            let next = write_schedule(s, out, at);
            write::copy(out, next, command)
        }
    }
}
