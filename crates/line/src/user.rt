// The user column of a system table's entry: a user, perhaps a group, perhaps a class.
ghost use Rattle.std.specs.Prelude.{◌≡◌, ◌<◌};
ghost use Rattle.line.specs.Users.{account_at, account_after, ended, column_at};
ghost use Rattle.line.specs.Owners.{behind, time_runs, line_owner};

use crate::assignment::Text;
use crate::{MAX_ACCOUNT, Part};
use octets::class::Class;
use octets::run::{byte_at, skip};

// Whose an entry is; an absent part is empty.
#[derive(Clone, Copy)]
pub struct Owner {
    pub user: Part,
    pub group: Part,
    pub class: Part,
}

// A column, and where the line goes on after it.
#[derive(Clone, Copy)]
pub struct Column {
    pub owner: Owner,
    pub next: usize,
}

const ABSENT: Part = Part { start: 0, end: 0 };

pub const NOBODY: Owner = Owner {
    user: ABSENT,
    group: ABSENT,
    class: ABSENT,
};

// The name that starts at a place.
fn account_at(s: &[u8], at: usize) -> Option<Text>
    ensures { result ≡ account_at s.now at }
{
    let end = skip(s, at, Class::Account);
    if (at < end) & ((end - at <= MAX_ACCOUNT) & (byte_at(s, at) != b'-')) {
        return Some(Text {
            part: Part { start: at, end },
            next: end,
        });
    }
    None
}

// The name behind a mark, absent where the mark doesn't stand there.
fn account_after(s: &[u8], at: usize, mark: u8) -> Option<Text>
    requires { 0 < mark }
    ensures { result ≡ account_after mark s.now at }
{
    if byte_at(s, at) == mark {
        return account_at(s, at + 1);
    }
    Some(Text {
        part: ABSENT,
        next: at,
    })
}

// The column ends here.
fn ended(s: &[u8], owner: Owner, next: usize) -> Option<Column>
    ensures { result ≡ ended s.now owner next }
{
    if skip(s, next, Class::Solid) == next {
        return Some(Column { owner, next });
    }
    None
}

// The column that starts at a place.
#[tactic(auto, unfolding(crate::specs::Users::column_at, crate::specs::Users::and_then))]
pub(crate) fn column_at(s: &[u8], at: usize) -> Option<Column>
    ensures { result ≡ column_at s.now at }
{
    let user = account_at(s, at)?;
    let group = account_after(s, user.next, b':')?;
    let class = account_after(s, group.next, b'/')?;
    let owner = Owner {
        user: user.part,
        group: group.part,
        class: class.part,
    };
    ended(s, owner, class.next)
}

// Where a line goes on behind so many runs of non-blank bytes, each with its blanks.
fn behind(l: &[u8], at: usize, runs: usize) -> usize
    ensures { result ≡ behind runs l.now at }
{
    let mut at = at;
    for _ in 0..runs {
        at = skip(l, skip(l, at, Class::Solid), Class::Blank);
    }
    at
}

// The runs of the time that starts at a place: an `@` word is one, the fields are five.
fn time_runs(l: &[u8], at: usize) -> usize
    ensures { result ≡ time_runs l.now at }
{
    if byte_at(l, at) == b'@' {
        return 1;
    }
    5
}

// The owner of the entry that a line is.
pub fn line_owner(l: &[u8]) -> Owner
    ensures { result ≡ line_owner l.now }
{
    let at = skip(l, 0, Class::Blank);
    let Some(column) = column_at(l, behind(l, at, time_runs(l, at))) else {
        return NOBODY;
    };
    column.owner
}
