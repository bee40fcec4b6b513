// A setting's line, `name=value` (P6, P7), written to a lent buffer as far as it fits.
ghost use Rattle.std.specs.Prelude.{◌≡◌};
ghost use Rattle.octets.specs.Clipped.{Wrote};
ghost use Rattle.normal.specs.Meanings.{setting};
ghost use Rattle.normal.specs.Texts.{starts_other, is_bare_name, is_bare_value, item_text};
ghost use Rattle.normal.specs.Inner.{quote_for, bare_or_quoted};

use line::starts_entry;
use octets::class::{Class, is_in, is_quote};
use octets::run::{byte_at, skip, trimmed_end};
use octets::write;

// Whether a line that starts with this byte is a comment or an entry.
fn starts_other(b: u8) -> bool
    ensures { result ≡ starts_other b }
{
    (b == b'#') | starts_entry(b)
}

pub(crate) fn is_bare_name(name: &[u8]) -> bool
    ensures { result ≡ is_bare_name name.now }
{
    (skip(name, 0, Class::Name) == name.len()) & !starts_other(byte_at(name, 0))
}

pub(crate) fn is_bare_value(value: &[u8]) -> bool
    ensures { result ≡ is_bare_value value.now }
{
    let first = byte_at(value, 0);
    !(is_in(Class::Blank, first) | is_quote(first)) & (trimmed_end(value, 0) == value.len())
}

// The quote that stands around it: double, or single if it has a double one.
fn quote_for(part: &[u8]) -> u8
    ensures { result ≡ quote_for part.now }
{
    if skip(part, 0, Class::Not(b'"')) == part.len() {
        return b'"';
    }
    b'\''
}

fn write_part(part: &[u8], bare: bool, out: &mut [u8], at: usize) -> usize
    ensures { Wrote at (bare_or_quoted bare part.now) out.old result out.new }
{
    if bare {
        return write::copy(out, at, part);
    }
    let quote = quote_for(part);
    let next = write::byte(out, at, quote);
    let next = write::copy(out, next, part);
    write::byte(out, next, quote)
}

// Writes it at a place, as far as it fits, and answers the place after it.
pub fn write(name: &[u8], value: &[u8], out: &mut [u8], at: usize) -> usize
    ensures { Wrote at (item_text (setting name.now value.now)) out.old result out.new }
{
    let next = write_part(name, is_bare_name(name), out, at);
    let next = write::byte(out, next, b'=');
    write_part(value, is_bare_value(value), out, next)
}
