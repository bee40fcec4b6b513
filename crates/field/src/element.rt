// One element of a comma list: `n`, `n-m` or `n-m/step`, in which n and m may be names.
ghost use Rattle.std.specs.Prelude.{◌≡◌};
ghost use Rattle.field.specs.Elements.{ranging, end_of, upper_of, element_of};

use crate::{Limits, Names, name, number};
use octets::class::Class;
use octets::run::skip;

// The values from low to high, of which every step-th counts.
#[derive(Clone, Copy)]
pub(crate) struct Element {
    pub low: u16,
    pub high: u16,
    pub step: u16,
}

// The range of three numbers, if all three are.
#[tactic(auto, unfolding(crate::specs::Elements::ranging))]
pub(crate) fn range(low: Option<u16>, high: Option<u16>, step: Option<u16>) -> Option<Element>
    ensures { result ≡ ranging low high step }
{
    let low = low?;
    let high = high?;
    let step = step?;
    Some(Element { low, high, step })
}

// A number, or a name in its place.
#[tactic(auto, unfolding(crate::specs::Elements::end_of, crate::specs::Elements::number_or))]
fn end(s: &[u8], names: Names) -> Option<u16>
    ensures { result ≡ end_of names s.now }
{
    match number::read(s) {
        Some(n) => Some(n),
        None => name::read(s, names),
    }
}

// The upper end of a range: Sunday's name is 7 there, unless the lower end is that name too, or ranges wrap.
fn upper(low: &[u8], high: &[u8], limits: Limits) -> Option<u16>
    ensures { result ≡ upper_of limits low.now high.now }
{
    let names = limits.names;
    if (name::is_sunday(high, names) & !name::is_sunday(low, names)) & !limits.wraps {
        return Some(7);
    }
    end(high, names)
}

// A dash parts n from what follows, and there a slash parts m from the step; with no step it is 1.
fn divided(s: &[u8], limits: Limits) -> Option<Element>
    ensures { result ≡ element_of limits s.now }
{
    let dash = skip(s, 0, Class::Not(b'-'));
    let low = end(&s[..dash], limits.names);
    if dash == s.len() {
        return range(low, low, Some(1));
    }
    let slash = skip(s, dash + 1, Class::Not(b'/'));
    let high = upper(&s[..dash], &s[dash + 1..slash], limits);
    if slash == s.len() {
        return range(low, high, Some(1));
    }
    range(low, high, number::read(&s[slash + 1..]))
}

// Most elements are one number, and needn't be divided.
pub(crate) fn read(s: &[u8], limits: Limits) -> Option<Element>
    ensures { result ≡ element_of limits s.now }
{
    if let Some(n) = number::read(s) {
        return Some(Element {
            low: n,
            high: n,
            step: 1,
        });
    }
    divided(s, limits)
}
