// Whether two entries, each of a table of its own, mean the same: time and offset or `@reboot`, user column and command.
ghost use Rattle.std.specs.Prelude.{◌≡◌, length, ◌&&◌, eqb};
ghost use Rattle.schedule.specs.Local.{OffsetInRange, biased_offset};
ghost use Rattle.line.specs.Assignments.{part_bytes};
ghost use Rattle.line.specs.Words.{same};
ghost use Rattle.crontab.specs.Inner.{Sound};
ghost use Rattle.reload.specs.EntryMeanings.{same_when, same_owner, clock_of, duty_of, same_meaning};
ghost use Rattle.reload.specs.Inner.{Inside, OwnerInside};

use crontab::entry::Entry;
use crontab::owner;
use line::time::When;
use line::user::Owner;
use line::{Part, Rules};

// Two times, each with its offset. Boot entries have none.
fn same_when(a: When, offset: i32, b: When, other: i32) -> bool
    requires { OffsetInRange offset × OffsetInRange other }
    ensures { result ≡ (same_when a b && eqb (biased_offset (clock_of a offset)) (biased_offset (clock_of b other))) }
{
    a == b
        && match a {
            When::Reboot => true,
            When::Timed(_) => offset == other,
        }
}

// The same bytes in a part of one table and a part of another.
fn same_part(s: &[u8], p: Part, t: &[u8], q: Part) -> bool
    requires { Inside (length s.now) p × Inside (length t.now) q }
    ensures { result ≡ same (part_bytes s.now p) (part_bytes t.now q) }
{
    s[p.start..p.end] == t[q.start..q.end]
}

fn same_owner(s: &[u8], a: Owner, t: &[u8], b: Owner) -> bool
    requires { OwnerInside (length s.now) a × OwnerInside (length t.now) b }
    ensures { result ≡ same_owner s.now a t.now b }
{
    same_part(s, a.user, t, b.user)
        && same_part(s, a.group, t, b.group)
        && same_part(s, a.class, t, b.class)
}

// Entry x of table s and entry y of table t. A struct of both would be no plainer: it borrows, so each clause would say `x.entry.` of it.
pub(crate) fn is_same_meaning(s: &[u8], x: Entry, t: &[u8], y: Entry, rules: Rules) -> bool
    requires { Sound (length s.now) x × Sound (length t.now) y }
    ensures { result ≡ same_meaning (duty_of rules s.now x) (duty_of rules t.now y) }
{
    let command = Part {
        start: x.start as usize,
        end: x.end as usize,
    };
    let other = Part {
        start: y.start as usize,
        end: y.end as usize,
    };
    same_when(x.when, x.offset, y.when, y.offset)
        && same_part(s, command, t, other)
        && same_owner(
            s,
            owner::of_entry(s, rules, x),
            t,
            owner::of_entry(t, rules, y),
        )
}
