// One time field of a crontab line (F1 to F9): from its bytes to the set of its values, or the refusal with its column; and
// from a set back to its text.
#![tactic(auto)]

mod element;
pub mod format;
mod list;
mod name;
mod number;
mod values;

ghost use Rattle.std.specs.Prelude.{◌≡◌};
ghost use Rattle.field.specs.Limits.{in_dialect};
ghost use Rattle.field.specs.Fields.{star_element, read_field};

use element::Element;
use refusal::Refusal;

// Which names a field has, to stand for numbers.
#[derive(Clone, Copy)]
pub enum Names {
    None,
    Months,
    Weekdays,
}

// The two dialects: in the rising one a range from high to low is refused (R7); in the wrapping one it runs to the field's last value and
// on from its first (W1).
#[derive(Clone, Copy)]
pub enum Dialect {
    Rising,
    Wrapping,
}

// What a field's numbers may be, first to last, and how many bits its set has. A number past the bits is counted on from the first: as a
// weekday, 7 is Sunday as 0 is.
#[derive(Clone, Copy)]
pub struct Limits {
    pub first: u8,
    pub last: u8,
    pub bits: u8,
    pub names: Names,
    // Whether a range may run from high to low: to the last value and on from the first.
    pub wraps: bool,
}

// What a field allows: bit n of the set stands for the value n, and `star` says whether the field begins with `*`.
#[derive(Clone, Copy)]
pub struct Allowed {
    pub set: u64,
    pub star: bool,
}

// Why a field or a line is refused. Columns count from 1.
#[derive(Clone, Copy)]
pub struct Fault {
    pub refusal: Refusal,
    pub column: usize,
}

// Why, without where.
impl From<Fault> for Refusal {
    ghost from_gives = { λ fault refusal. refusal ≡ fault.refusal };

    fn from(fault: Fault) -> Refusal {
        fault.refusal
    }
}

// The five fields.
pub const MINUTE: Limits = Limits {
    first: 0,
    last: 59,
    bits: 60,
    names: Names::None,
    wraps: false,
};

pub const HOUR: Limits = Limits {
    first: 0,
    last: 23,
    bits: 24,
    names: Names::None,
    wraps: false,
};

pub const DAY: Limits = Limits {
    first: 1,
    last: 31,
    bits: 32,
    names: Names::None,
    wraps: false,
};

pub const MONTH: Limits = Limits {
    first: 1,
    last: 12,
    bits: 13,
    names: Names::Months,
    wraps: false,
};

pub const WEEKDAY: Limits = Limits {
    first: 0,
    last: 7,
    bits: 7,
    names: Names::Weekdays,
    wraps: false,
};

// A field's limits in a dialect: in the second its values are those that have bits of their own, so there is no weekday 7.
pub fn in_dialect(limits: Limits, dialect: Dialect) -> Limits
    ensures { result ≡ in_dialect dialect limits }
{
    match dialect {
        Dialect::Rising => limits,
        Dialect::Wrapping => Limits {
            last: limits.bits.saturating_sub(1),
            wraps: true,
            ..limits
        },
    }
}

// A field that starts with an asterisk, by what follows it: nothing, or a slash and a step.
fn after_star(s: &[u8], limits: Limits) -> Option<Element>
    ensures { result ≡ star_element limits s.now }
{
    let first = limits.first as u16;
    let last = limits.last as u16;
    if s.len() == 0 {
        return Some(Element {
            low: first,
            high: last,
            step: 1,
        });
    }
    if s[0] == b'/' {
        let step = number::read(&s[1..]);
        return element::range(Some(first), Some(last), step);
    }
    None
}

// Any bytes as a field whose first byte stands at the column.
pub fn read(s: &[u8], column: u32, limits: Limits) -> Result<Allowed, Fault>
    ensures { result ≡ read_field limits column s.now }
{
    let column = column as usize;
    let malformed = Fault {
        refusal: Refusal::Malformed,
        column,
    };
    if s.len() == 0 {
        return Err(malformed);
    }
    if s[0] == b'*' {
        let element = after_star(&s[1..], limits).ok_or(malformed)?;
        let start = Allowed { set: 0, star: true };
        return values::judge(limits, column, Ok(start), element);
    }
    // Most fields are one number.
    if let Some(n) = number::read(s) {
        return values::judge_number(limits, column, n);
    }
    list::read(s, column, limits)
}
