// The five time fields of an entry, left to right.
ghost use Rattle.std.specs.Prelude.{◌≡◌, ◌≤◌, ◌<◌, length};
ghost use Rattle.field.specs.Limits.{in_dialect};
ghost use Rattle.line.specs.Limits.{max_line};
ghost use Rattle.line.specs.Times.{field_at, fields_at};

use field::{Allowed, Dialect, Fault, Limits, in_dialect};
use octets::class::Class;
use octets::run::skip;
use refusal::Refusal;
use schedule::{Schedule, Stars};

// When an entry's command starts: at boot only, or at the minutes of a schedule.
#[derive(Clone, Copy, PartialEq)]
pub enum When {
    Reboot,
    Timed(Schedule),
}

// What a field of a line says, and where the line goes on after its blanks.
#[derive(Clone, Copy)]
pub struct Field {
    pub set: u64,
    pub star: bool,
    pub next: usize,
}

// When an entry fires, and where its line goes on after that and its blanks.
#[derive(Clone, Copy)]
pub struct Time {
    pub when: When,
    pub next: usize,
}

// The field that starts at a place.
#[tactic(auto, unfolding(crate::specs::Times::field_at, crate::specs::Times::answered, octets::specs::Runs::between))]
fn field_at(s: &[u8], at: usize, limits: Limits, dialect: Dialect) -> Result<Field, Fault>
    requires { length s.now ≤ max_line }
    ensures { result ≡ field_at (in_dialect dialect limits) s.now at }
{
    if s.len() <= at {
        return Err(Fault {
            refusal: Refusal::TooFewFields,
            column: s.len() + 1,
        });
    }
    let end = skip(s, at, Class::Solid);
    let limits = in_dialect(limits, dialect);
    let Allowed { set, star } = field::read(&s[at..end], (at + 1) as u32, limits)?;
    Ok(Field {
        set,
        star,
        next: skip(s, end, Class::Blank),
    })
}

// The five fields of which the first starts at a place.
#[tactic(auto, unfolding(crate::specs::Times::fields_at, crate::specs::Times::after))]
pub(crate) fn read(s: &[u8], dialect: Dialect, at: usize) -> Result<Time, Fault>
    requires { length s.now ≤ max_line }
    ensures { result ≡ fields_at dialect s.now at }
{
    let minute = field_at(s, at, field::MINUTE, dialect)?;
    let hour = field_at(s, minute.next, field::HOUR, dialect)?;
    let day = field_at(s, hour.next, field::DAY, dialect)?;
    let month = field_at(s, day.next, field::MONTH, dialect)?;
    let weekday = field_at(s, month.next, field::WEEKDAY, dialect)?;
    let schedule = Schedule {
        minutes: minute.set,
        hours: hour.set as u32,
        days: day.set as u32,
        months: month.set as u16,
        weekdays: weekday.set as u8,
        stars: Stars {
            minutes: minute.star,
            hours: hour.star,
            days: day.star,
            months: month.star,
            weekdays: weekday.star,
        },
    };
    Ok(Time {
        when: When::Timed(schedule),
        next: weekday.next,
    })
}
