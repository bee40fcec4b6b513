// Numbers of 1 to 4 digits.
ghost use Rattle.std.specs.Prelude.{◌≡◌};
ghost use Rattle.field.specs.Numbers.{number_of};

const MAX_DIGITS: usize = 4;

// The number that a run of bytes is: 1 to 4 digits and nothing else.
pub(crate) fn read(s: &[u8]) -> Option<u16>
    ensures { result ≡ number_of s.now }
{
    if s.is_empty() {
        return None;
    }
    if MAX_DIGITS < s.len() {
        return None;
    }
    let mut value: u16 = 0;
    for &b in s {
        if !b.is_ascii_digit() {
            return None;
        }
        value = value * 10 + (b - b'0') as u16;
    }
    Some(value)
}
