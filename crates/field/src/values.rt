// The values of an element within a field's limits, put into the field's set.
ghost use Rattle.std.specs.Prelude.{◌≡◌, ◌+◌, ◌-◌, ◌^◌, ◌≤◌, ◌<◌, false, Some};
ghost use Rattle.field.specs.Elements.{from_to};
ghost use Rattle.field.specs.Values.{bit_of, last_of, values_of, including};
ghost use Rattle.field.specs.Inner.{last_new};
ghost use Rattle.field.specs.Judgement.{means, outside, judged};

use crate::element::Element;
use crate::{Allowed, Fault, Limits};
use refusal::Refusal;

// The bit of a value: its own, or past the last bit counted on from the first. As a weekday, 7 is Sunday as 0 is.
pub(crate) fn bit_of(limits: Limits, value: u64) -> u64
    requires { value < 2 ^ 32 }
    ensures { result ≡ bit_of limits value }
{
    let bits = limits.bits as u64;
    if value < bits {
        return value;
    }
    limits.first as u64 + (value - bits)
}

// The set with low and each step-th value after it, up to high. Low counts even where it is past high, so no range says these values.
fn with_range(set: u64, limits: Limits, low: u16, high: u16, step: u16) -> u64
    requires { 0 < step }
    ensures { result ≡ including limits set (values_of low high step) }
{
    let last = high as u64;
    let by = step as u64;
    let mut set = set;
    let mut value = low as u64;
    loop {
        set = octets::set::with(set, bit_of(limits, value));
        value += by;
        if last < value {
            return set;
        }
    }
}

// The bits from low to high with no gap.
fn run(low: u16, high: u16) -> u64
    requires { (low ≤ high) × (high < 63) }
    ensures { result ≡ 2 ^ (high + 1) - 2 ^ low }
{
    (2 << high as u64) - (1 << low as u64)
}

// The last value of a range that says something new: where all bits are in it, the value after the last, which is the first again, doesn't.
fn last_new(limits: Limits, low: u16, high: u16) -> u16
    ensures { result ≡ last_new limits low high }
{
    if (low == 0) & ((limits.first as u16) < high) & (high == limits.bits as u16) {
        return high - 1;
    }
    high
}

// As with_range does, but a single run of values that have their own bits at once.
pub(crate) fn with_values(set: u64, limits: Limits, low: u16, high: u16, step: u16) -> u64
    requires { 0 < step }
    ensures { result ≡ including limits set (values_of low high step) }
{
    let last = last_new(limits, low, high);
    if (set == 0) & (step == 1) & (low <= last) & (last < 63) & (last < limits.bits as u16) {
        return run(low, last);
    }
    with_range(set, limits, low, high, step)
}

// Whether a number lies outside the limits.
fn is_outside(limits: Limits, n: u16) -> bool
    ensures { result ≡ outside limits n }
{
    (n < limits.first as u16) | ((limits.last as u16) < n)
}

// The last value of a range: where its end is below its begin, as far past the last bit as the end is past the first value.
fn last_of(limits: Limits, low: u16, high: u16) -> u16
    requires { (limits.first ≤ high) × (high ≤ limits.last) }
    ensures { result ≡ last_of limits low high }
{
    if high < low {
        return limits.bits as u16 + (high - limits.first as u16);
    }
    high
}

// The answer with one element more, whose first byte stands at the column. A refusal stands.
pub(crate) fn judge(
    limits: Limits,
    column: usize,
    answer: Result<Allowed, Fault>,
    element: Element,
) -> Result<Allowed, Fault>
    ensures { result ≡ judged limits column answer (Some element) }
{
    let Allowed { set, star } = answer?;
    let Element { low, high, step } = element;
    if is_outside(limits, low) | is_outside(limits, high) {
        return Err(Fault {
            refusal: Refusal::OutOfLimits,
            column,
        });
    }
    if (high < low) & !limits.wraps {
        return Err(Fault {
            refusal: Refusal::Reversed,
            column,
        });
    }
    if step == 0 {
        return Err(Fault {
            refusal: Refusal::StepZero,
            column,
        });
    }
    let last = last_of(limits, low, high);
    let set = with_values(set, limits, low, last, step);
    Ok(Allowed { set, star })
}

// The answer for a field that is one number, whose first byte stands at the column.
pub(crate) fn judge_number(limits: Limits, column: usize, n: u16) -> Result<Allowed, Fault>
    ensures { result ≡ judged limits column (means 0 false) (from_to n n 1) }
{
    if is_outside(limits, n) {
        return Err(Fault {
            refusal: Refusal::OutOfLimits,
            column,
        });
    }
    let set = octets::set::with(0, bit_of(limits, n as u64));
    Ok(Allowed { set, star: false })
}
