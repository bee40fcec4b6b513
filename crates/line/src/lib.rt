// One line of a table, by its bytes without the newline: nothing, a setting or an entry, or its refusal. Places count from 0 in the line,
// columns from 1.
#![tactic(auto)]

pub mod assignment;
pub mod entry;
pub mod offset;
pub mod time;
pub mod user;
pub mod word;

ghost use Rattle.std.specs.Prelude.{◌≡◌, ◌≤◌, ◌<◌, length};
ghost use Rattle.octets.specs.declared.class.Class.TheVariants.{InLine};
ghost use Rattle.octets.specs.Runs.{skipped};
ghost use Rattle.line.specs.Limits.{max_line};
ghost use Rattle.line.specs.Lines.{starts_entry, content_of, byte_fault, read_line};

use field::Dialect;
pub use field::Fault;
use octets::class::Class;
use octets::run::skip;
use refusal::Refusal;
use time::When;

pub const MAX_LINE: usize = 1000;

// A user, a group or a class.
pub const MAX_ACCOUNT: usize = 32;

// The kinds of tables: those of users, and the system's, in which a user stands between the time and the command.
#[derive(Clone, Copy)]
pub enum Kind {
    User,
    System,
}

// How a table is read.
#[derive(Clone, Copy)]
pub struct Rules {
    pub kind: Kind,
    pub dialect: Dialect,
}

// The bytes from `start` to before `end`.
#[derive(Clone, Copy)]
pub struct Part {
    pub start: usize,
    pub end: usize,
}

// What a line is.
#[derive(Clone, Copy)]
pub enum Line {
    // Nothing, or a comment.
    Ignored,
    // The zone is the offset from UTC, in minutes, that holds from there on, if the setting says one.
    Setting {
        name: Part,
        value: Part,
        zone: Option<i32>,
    },
    // The command goes on to the line's end.
    Entry {
        when: When,
        start: usize,
    },
}

// Whether a line that starts with this byte is an entry.
pub fn starts_entry(b: u8) -> bool
    ensures { result ≡ starts_entry b }
{
    (b == b'*') | (b.is_ascii_digit() | (b == b'@'))
}

// A line that is short enough and has only bytes that it may have, by its first byte that isn't blank.
fn content(s: &[u8], rules: Rules) -> Result<Line, Fault>
    requires { length s.now ≤ max_line }
    ensures { result ≡ content_of rules s.now }
{
    let at = skip(s, 0, Class::Blank);
    if s.len() <= at {
        return Ok(Line::Ignored);
    }
    let first = s[at];
    if first == b'#' {
        return Ok(Line::Ignored);
    }
    if starts_entry(first) {
        return entry::read(s, rules, at);
    }
    assignment::read(s, at)
}

// The fault of a line whose first byte that it may not have stands at a place: a byte 0 from there on comes first.
fn byte_fault(s: &[u8], stop: usize) -> Fault
    requires { (stop ≡ skipped InLine s.now 0) × (stop < length s.now) × (length s.now ≤ max_line) }
    ensures { result ≡ byte_fault s.now }
{
    let nul = skip(s, stop, Class::Not(0));
    if nul < s.len() {
        return Fault {
            refusal: Refusal::NulByte,
            column: nul + 1,
        };
    }
    Fault {
        refusal: Refusal::ControlByte,
        column: stop + 1,
    }
}

// A line whose first byte that it may not have stands at a place, or one that has none and ends there.
pub fn judge(s: &[u8], rules: Rules, stop: usize) -> Result<Line, Fault>
    requires { stop ≡ skipped InLine s.now 0 }
    ensures { result ≡ read_line rules s.now }
{
    if MAX_LINE < s.len() {
        return Err(Fault {
            refusal: Refusal::LineTooLong,
            column: MAX_LINE + 1,
        });
    }
    if stop < s.len() {
        return Err(byte_fault(s, stop));
    }
    content(s, rules)
}
