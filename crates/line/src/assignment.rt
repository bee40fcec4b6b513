// A setting: a name, `=` and a value.
ghost use Rattle.std.specs.Prelude.{◌≡◌, ◌≤◌, ◌<◌, length, Some};
ghost use Rattle.line.specs.Assignments.{quoted_at, non_empty, name_at, closed, value_at, with_offset, zoned, setting_at};

use crate::{Fault, Line, Part, offset};
use octets::class::{Class, is_quote};
use octets::run::{byte_at, skip, trimmed_end};
use refusal::Refusal;

// A name or a value: where it stands, and where the line goes on after it.
#[derive(Clone, Copy)]
pub struct Text {
    pub part: Part,
    pub next: usize,
}

// The text from a quote to the next quote of its kind.
fn quoted(s: &[u8], at: usize) -> Option<Text>
    requires { at < length s.now }
    ensures { result ≡ quoted_at s.now at }
{
    let start = at + 1;
    let end = skip(s, start, Class::Not(s[at]));
    if end < s.len() {
        return Some(Text {
            part: Part { start, end },
            next: end + 1,
        });
    }
    None
}

fn non_empty(text: Text) -> Option<Text>
    ensures { result ≡ non_empty (Some text) }
{
    if text.part.start < text.part.end {
        return Some(text);
    }
    None
}

// The name that starts at a place.
#[tactic(auto, unfolding(crate::specs::Assignments::name_at, crate::specs::Assignments::non_empty))]
fn name_at(s: &[u8], at: usize) -> Option<Text>
    requires { at < length s.now }
    ensures { result ≡ name_at s.now at }
{
    if is_quote(s[at]) {
        return non_empty(quoted(s, at)?);
    }
    let end = skip(s, at, Class::Name);
    non_empty(Text {
        part: Part { start: at, end },
        next: end,
    })
}

// A text after which the line has only blanks.
fn closed(s: &[u8], text: Text) -> Option<Text>
    ensures { result ≡ closed s.now (Some text) }
{
    if s.len() <= skip(s, text.next, Class::Blank) {
        return Some(text);
    }
    None
}

// The value that starts at a place.
#[tactic(auto, unfolding(crate::specs::Assignments::value_at, crate::specs::Assignments::closed))]
fn value_at(s: &[u8], at: usize) -> Option<Text>
    requires { at ≤ length s.now }
    ensures { result ≡ value_at s.now at }
{
    if is_quote(byte_at(s, at)) {
        return closed(s, quoted(s, at)?);
    }
    Some(Text {
        part: Part {
            start: at,
            end: trimmed_end(s, at),
        },
        next: s.len(),
    })
}

// A setting of the offset, whose value starts at a place, without or with its quote.
#[tactic(auto, unfolding(crate::specs::Assignments::with_offset, crate::specs::Assignments::after_offset, octets::specs::Runs::between))]
fn with_offset(s: &[u8], at: usize, name: Part, value: Part) -> Result<Line, Fault>
    requires { (at ≤ length s.now) × (value.start ≤ value.end) × (value.end ≤ length s.now) }
    ensures { result ≡ with_offset s.now at name value }
{
    let refused = Fault {
        refusal: Refusal::BadOffset,
        column: at + 1,
    };
    let minutes = offset::read(&s[value.start..value.end]).ok_or(refused)?;
    Ok(Line::Setting {
        name,
        value,
        zone: Some(minutes),
    })
}

// A setting whose value starts at a place: one of the name `CRON_TZ` is of the offset.
fn zoned(s: &[u8], at: usize, name: Part, value: Part) -> Result<Line, Fault>
    requires { (at ≤ length s.now) × (name.start ≤ name.end) × (name.end ≤ length s.now) × (value.start ≤ value.end) × (value.end ≤ length s.now) }
    ensures { result ≡ zoned s.now at name value }
{
    if offset::is_zone(&s[name.start..name.end]) {
        return with_offset(s, at, name, value);
    }
    Ok(Line::Setting {
        name,
        value,
        zone: None,
    })
}

// The setting whose name starts at a place.
#[tactic(auto, unfolding(crate::specs::Assignments::setting_at, crate::specs::Assignments::after_name, crate::specs::Assignments::after_equals))]
pub(crate) fn read(s: &[u8], at: usize) -> Result<Line, Fault>
    requires { at < length s.now }
    ensures { result ≡ setting_at s.now at }
{
    let refused = Fault {
        refusal: Refusal::BadSetting,
        column: at + 1,
    };
    let name = name_at(s, at).ok_or(refused)?;
    let equals = skip(s, name.next, Class::Blank);
    if byte_at(s, equals) != b'=' {
        return Err(refused);
    }
    let start = skip(s, equals + 1, Class::Blank);
    let value = value_at(s, start).ok_or(refused)?;
    zoned(s, start, name.part, value.part)
}
