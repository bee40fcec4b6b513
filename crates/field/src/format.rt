// The text of a field's set and star flag (P4, P5), written to a lent buffer as far as it fits; and whether a field may mean them. The
// limits are such as the five fields have: their values have bits in a word.
ghost use Rattle.std.specs.Prelude.{◌≡◌, ◌<◌, ◌≤◌, length};
ghost use Rattle.octets.specs.Clipped.{Wrote};
ghost use Rattle.field.specs.Inner.{InWord, member_text, size_below};
ghost use Rattle.field.specs.Written.{star_set, gives, step_of, star_text, members, list_text, field_text, is_field};

use crate::Limits;
use crate::values::{bit_of, with_values};
use octets::{set, write};

// The set of a star with a step. It stands apart, so that the search for a step stays a small loop.
#[inline(never)]
fn stepped(limits: Limits, n: u8) -> u64
    requires { 0 < n }
    ensures { result ≡ star_set limits n }
{
    with_values(0, limits, limits.first as u16, limits.last as u16, n as u16)
}

// The same. A star alone gives one run of bits, which is made at once.
fn star_set(limits: Limits, n: u8) -> u64
    requires { 0 < n }
    ensures { result ≡ star_set limits n }
{
    if n == 1 {
        return with_values(0, limits, limits.first as u16, limits.last as u16, 1);
    }
    stepped(limits, n)
}

// Whether a step gives the set. Its second value is looked for before all of them are put together.
fn is_step(limits: Limits, set: u64, n: u8) -> bool
    requires { InWord limits × (0 < n) }
    ensures { result ≡ gives limits set n }
{
    let first = limits.first as u16;
    let last = limits.last as u16;
    let second = first + n as u16;
    if (second <= last) & !set::has(set, bit_of(limits, second as u64)) {
        return false;
    }
    star_set(limits, n) == set
}

// The smallest step that gives the set, by a search.
#[inline(never)]
fn searched_step(limits: Limits, set: u64) -> u8
    requires { InWord limits }
    ensures { result ≡ step_of limits set }
{
    let past = limits.last + 1;
    for n in 1..past {
        if is_step(limits, set, n) {
            return n;
        }
    }
    past
}

// The smallest step that gives the set. Most stars have none, and need no search.
fn step_of(limits: Limits, set: u64) -> u8
    requires { InWord limits }
    ensures { result ≡ step_of limits set }
{
    if (0 < limits.last) & is_step(limits, set, 1) {
        return 1;
    }
    searched_step(limits, set)
}

fn write_star(n: u8, out: &mut [u8], at: usize) -> usize
    ensures { Wrote at (star_text n) out.old result out.new }
{
    let next = write::byte(out, at, b'*');
    if n == 1 {
        return next;
    }
    let next = write::byte(out, next, b'/');
    write::number(out, next, n)
}

// A value of a list, with a comma in front unless it is the first.
fn write_member(value: u8, first: bool, out: &mut [u8], at: usize) -> usize
    ensures { Wrote at (member_text first value) out.old result out.new }
{
    if first {
        return write::number(out, at, value);
    }
    let next = write::byte(out, at, b',');
    write::number(out, next, value)
}

// How many bytes the values below n have in a list, each with a comma: three, or two where there is one digit.
fn size_below(set: u64, n: u64) -> u64
    requires { n ≤ 64 }
    ensures { result ≡ size_below set n }
{
    let short = n.min(10);
    3 * set::below(set, n) - set::below(set, short)
}

// How many bytes the list has: no comma is in front.
fn list_size(limits: Limits, set: u64) -> usize
    requires { (limits.first ≤ limits.bits) × (limits.bits ≤ 64) }
    ensures { result ≡ length (list_text (members limits set)) }
{
    let all = size_below(set, limits.bits as u64);
    let before = size_below(set, limits.first as u64);
    if before < all {
        return (all - before - 1) as usize;
    }
    0
}

// The values of the set, from one to the next.
fn write_values(limits: Limits, set: u64, out: &mut [u8], start: usize) -> usize
    requires { limits.bits ≤ 64 }
    ensures { Wrote start (list_text (members limits set)) out.old result out.new }
{
    let bits = limits.bits as u64;
    let mut value = set::next(set, limits.first as u64, bits);
    let mut first = true;
    let mut at = start;
    while value < bits {
        at = write_member(value as u8, first, out, at);
        first = false;
        value = set::next(set, value + 1, bits);
    }
    at
}

// Whether there are two values or more, so that it is worth counting them.
fn has_several(set: u64) -> bool {
    1 < set.count_ones()
}

// The list. Where nothing fits, as where a text is only measured, its values are counted and not gone through.
fn write_list(limits: Limits, set: u64, out: &mut [u8], at: usize) -> usize
    requires { (limits.first ≤ limits.bits) × (limits.bits ≤ 64) }
    ensures { Wrote at (list_text (members limits set)) out.old result out.new }
{
    if out.len() <= at {
        return write::after(at, list_size(limits, set));
    }
    write_values(limits, set, out, at)
}

// Writes the text at a place, as far as it fits, and answers the place after it.
pub fn write(limits: Limits, set: u64, star: bool, out: &mut [u8], at: usize) -> usize
    requires { InWord limits × (limits.bits ≤ 64) }
    ensures { Wrote at (field_text limits set star) out.old result out.new }
{
    if star {
        let n = step_of(limits, set);
        return write_star(n, out, at);
    }
    if has_several(set) {
        return write_list(limits, set, out, at);
    }
    write_values(limits, set, out, at)
}

// Whether a field may mean a set and a flag: a step gives the set; or it isn't empty and has no bit but those of the field's values.
pub fn is_field(limits: Limits, set: u64, star: bool) -> bool
    requires { InWord limits × (limits.first < limits.bits) }
    ensures { result ≡ is_field limits set star }
{
    if star {
        return is_step(limits, set, step_of(limits, set));
    }
    let first = limits.first as u16;
    let last = limits.bits as u16 - 1;
    let full = with_values(0, limits, first, last, 1);
    (set != 0) & (full & set == set)
}
