// The three-letter English names of months and weekdays, in any letter case.
ghost use Rattle.std.specs.Prelude.{bytes_eq, ◌≡◌, ◌+◌, ◌^◌, ◌<◌, length};
ghost use Rattle.field.specs.Inner.{InLower};
ghost use Rattle.field.specs.Names.{named, name_of, is_sunday};

use crate::Names;

// January is 1.
const MONTHS: [[u8; 3]; 12] = [
    *b"jan", *b"feb", *b"mar", *b"apr", *b"may", *b"jun", *b"jul", *b"aug", *b"sep", *b"oct",
    *b"nov", *b"dec",
];

// Sunday is 0.
const WEEKDAYS: [[u8; 3]; 7] = [
    *b"sun", *b"mon", *b"tue", *b"wed", *b"thu", *b"fri", *b"sat",
];

// Whether three bytes are a name, letter by letter: most names differ in the first letter.
fn is_name(letters: [u8; 3], name: [u8; 3]) -> bool
    ensures { result ≡ bytes_eq letters name }
{
    letters[0] == name[0] && letters[1] == name[1] && letters[2] == name[2]
}

// The number of a name among some in lower case, of which the first has the number given. The bytes are brought into lower case once.
fn named(s: &[u8], names: &[[u8; 3]], first: u16) -> Option<u16>
    requires { InLower names.now × (first + length names.now < 2 ^ 16) }
    ensures { result ≡ named first names.now s.now }
{
    let Ok(mut low) = <[u8; 3]>::try_from(s) else {
        return None;
    };
    low.make_ascii_lowercase();
    for i in 0..names.len() {
        if is_name(low, names[i]) {
            return Some(first + i as u16);
        }
    }
    None
}

// The number that a name stands for in a field with such names.
pub(crate) fn read(s: &[u8], names: Names) -> Option<u16>
    ensures { result ≡ name_of names s.now }
{
    match names {
        Names::None => None,
        Names::Months => named(s, &MONTHS, 1),
        Names::Weekdays => named(s, &WEEKDAYS, 0),
    }
}

// Whether s is the name of Sunday in a field with such names.
pub(crate) fn is_sunday(s: &[u8], names: Names) -> bool
    ensures { result ≡ is_sunday names s.now }
{
    match names {
        Names::None => false,
        Names::Months => false,
        Names::Weekdays => s.eq_ignore_ascii_case(b"sun"),
    }
}
