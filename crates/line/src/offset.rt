// Fixed offsets from UTC: the value of a setting `CRON_TZ` (O2, O3).
ghost use Rattle.std.specs.Prelude.{◌≡◌, ◌-◌, ◌≤◌};
ghost use Rattle.line.specs.Words.{same};
ghost use Rattle.line.specs.Offsets.{zone_name, is_formed, two_digits, furthest, signed, read_offset, Zoned, in_force};

use crate::word::is_word;
use octets::run::byte_at;

// Whether a value is a sign, two digits, a colon and two digits.
fn is_formed(s: &[u8]) -> bool
    ensures { result ≡ is_formed s.now }
{
    let sign = byte_at(s, 0);
    let signed = (sign == b'+') | (sign == b'-');
    let hours = byte_at(s, 1).is_ascii_digit() & byte_at(s, 2).is_ascii_digit();
    let colon = byte_at(s, 3) == b':';
    let minutes = byte_at(s, 4).is_ascii_digit() & byte_at(s, 5).is_ascii_digit();
    (s.len() == 6) & (signed & (hours & (colon & minutes)))
}

// The value of a digit, and 0 for a byte below the digits.
fn digit(b: u8) -> u32
    ensures { (result ≡ b - 48) × (result ≤ 207) }
{
    b.saturating_sub(b'0') as u32
}

fn two_digits(tens: u8, ones: u8) -> u32
    ensures { (result ≡ two_digits tens ones) × (result ≤ 2277) }
{
    digit(tens) * 10 + digit(ones)
}

// 12 hours behind UTC, and 14 ahead of it.
fn furthest(behind: bool) -> u32
    ensures { (result ≡ furthest behind) × (result ≤ 840) }
{
    if behind {
        return 720;
    }
    840
}

fn signed(behind: bool, minutes: u32) -> i32
    requires { minutes ≤ 840 }
    ensures { result ≡ signed behind minutes }
{
    if behind {
        return 0 - minutes as i32;
    }
    minutes as i32
}

// The offset that a value says, in minutes, if it says one.
pub fn read(s: &[u8]) -> Option<i32>
    ensures { result ≡ read_offset s.now }
{
    let hours = two_digits(byte_at(s, 1), byte_at(s, 2));
    let rest = two_digits(byte_at(s, 4), byte_at(s, 5));
    let minutes = hours * 60 + rest;
    let behind = byte_at(s, 0) == b'-';
    let near = (rest <= 59) & (minutes <= furthest(behind));
    if is_formed(s) & near {
        return Some(signed(behind, minutes));
    }
    None
}

// Whether a setting of this name says an offset.
pub fn is_zone(name: &[u8]) -> bool
    ensures { result ≡ same name.now zone_name }
{
    is_word(name, b"CRON_TZ")
}

// The offset after a setting, which says one or leaves the one that was in force.
pub fn in_force(zone: Option<i32>, before: i32) -> i32
    requires { Zoned zone }
    ensures { result ≡ in_force zone before }
{
    zone.unwrap_or(before)
}
