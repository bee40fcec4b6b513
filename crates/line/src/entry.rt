// An entry: its time, and the command behind it.
ghost use Rattle.std.specs.Prelude.{◌≡◌, ◌≤◌, length};
ghost use Rattle.line.specs.Limits.{max_line};
ghost use Rattle.line.specs.Entries.{time_at, with_command, with_user, by_kind, entry_at};

use crate::time::{Time, When};
use crate::{Fault, Kind, Line, Rules, time, user, word};
use field::Dialect;
use octets::class::Class;
use octets::run::{byte_at, skip};
use refusal::Refusal;

// The time that starts at a place.
fn time(s: &[u8], dialect: Dialect, at: usize) -> Result<Time, Fault>
    requires { length s.now ≤ max_line }
    ensures { result ≡ time_at dialect s.now at }
{
    if byte_at(s, at) == b'@' {
        return word::read(s, at);
    }
    time::read(s, dialect, at)
}

// The command from a place to the line's end.
fn with_command(s: &[u8], when: When, start: usize) -> Result<Line, Fault>
    ensures { result ≡ with_command s.now when start }
{
    let end = s.len();
    if start < end {
        return Ok(Line::Entry { when, start });
    }
    Err(Fault {
        refusal: Refusal::NoCommand,
        column: end + 1,
    })
}

// The user column from a place on, and the command behind it.
#[tactic(auto, unfolding(crate::specs::Entries::with_user, crate::specs::Entries::after_owner))]
fn with_user(s: &[u8], when: When, at: usize) -> Result<Line, Fault>
    ensures { result ≡ with_user s.now when at }
{
    if s.len() <= at {
        return with_command(s, when, at);
    }
    let refused = Fault {
        refusal: Refusal::BadUser,
        column: at + 1,
    };
    let column = user::column_at(s, at).ok_or(refused)?;
    with_command(s, when, skip(s, column.next, Class::Blank))
}

// What follows the time, by the kind of table.
fn after_time(s: &[u8], rules: Rules, when: When, next: usize) -> Result<Line, Fault>
    ensures { result ≡ by_kind rules.kind (with_command s.now when next) (with_user s.now when next) }
{
    match rules.kind {
        Kind::User => with_command(s, when, next),
        Kind::System => with_user(s, when, next),
    }
}

// The entry that starts at a place.
#[tactic(auto, unfolding(crate::specs::Entries::entry_at, crate::specs::Entries::after_time))]
pub(crate) fn read(s: &[u8], rules: Rules, at: usize) -> Result<Line, Fault>
    requires { length s.now ≤ max_line }
    ensures { result ≡ entry_at rules s.now at }
{
    let Time { when, next } = time(s, rules.dialect, at)?;
    after_time(s, rules, when, next)
}
