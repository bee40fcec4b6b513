// Whether a line can mean an item: the tests of its parts.
ghost use Rattle.std.specs.Prelude.{◌≡◌, ◌||◌};
ghost use Rattle.octets.specs.Runs.{are_of};
ghost use Rattle.normal.specs.Proper.{is_quotable, is_name, is_value, is_command, is_schedule};
ghost use Rattle.line.specs.Offsets.{is_offset, is_allowed_setting};

use crate::setting::{is_bare_name, is_bare_value};
use field::format::is_field;
use line::offset;
use octets::class::{Class, is_in};
use octets::run::{byte_at, skip};
use schedule::Schedule;

// Whether all bytes are of a kind.
fn are_of(class: Class, s: &[u8]) -> bool
    ensures { result ≡ are_of class s.now }
{
    skip(s, 0, class) == s.len()
}

// Whether a name or a value stands bare, or else may stand in quotes.
fn is_part(part: &[u8], bare: bool) -> bool
    ensures { result ≡ (bare || is_quotable part.now) }
{
    if bare {
        return true;
    }
    are_of(Class::Not(b'"'), part) | are_of(Class::Not(b'\''), part)
}

pub fn is_name(name: &[u8]) -> bool
    ensures { result ≡ is_name name.now }
{
    (1 <= name.len()) & (are_of(Class::InLine, name) & is_part(name, is_bare_name(name)))
}

pub fn is_value(value: &[u8]) -> bool
    ensures { result ≡ is_value value.now }
{
    are_of(Class::InLine, value) & is_part(value, is_bare_value(value))
}

pub fn is_command(command: &[u8]) -> bool
    ensures { result ≡ is_command command.now }
{
    (1 <= command.len())
        & (are_of(Class::InLine, command) & !is_in(Class::Blank, byte_at(command, 0)))
}

fn is_offset(value: &[u8]) -> bool
    ensures { result ≡ is_offset value.now }
{
    offset::read(value).is_some()
}

// Whether the value of a setting `CRON_TZ` is an offset; any other setting may have any value.
pub fn is_zoned(name: &[u8], value: &[u8]) -> bool
    ensures { result ≡ is_allowed_setting name.now value.now }
{
    if offset::is_zone(name) {
        return is_offset(value);
    }
    true
}

pub fn is_schedule(s: Schedule) -> bool
    ensures { result ≡ is_schedule s }
{
    let stars = s.stars;
    let minutes = is_field(field::MINUTE, s.minutes, stars.minutes);
    let hours = is_field(field::HOUR, s.hours as u64, stars.hours);
    let days = is_field(field::DAY, s.days as u64, stars.days);
    let months = is_field(field::MONTH, s.months as u64, stars.months);
    let weekdays = is_field(field::WEEKDAY, s.weekdays as u64, stars.weekdays);
    minutes & (hours & (days & (months & weekdays)))
}
