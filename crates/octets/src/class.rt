// Kinds of bytes.
ghost use Rattle.std.specs.Prelude.{◌≡◌};
ghost use Rattle.octets.specs.declared.class.Class.TheVariants.{InLine};
ghost use Rattle.octets.specs.Classes.{is_blank, is_quote, is_account, is_control, of_class};

#[derive(Clone, Copy)]
pub enum Class {
    // Space and tab.
    Blank,
    // Any other byte.
    Solid,
    // What a bare name is made of: no blank, no `=` and no quote.
    Name,
    // What a user, a group or a class is made of: letters, digits, `_`, `-` and `.`.
    Account,
    // Any byte but this one.
    Not(u8),
    // What a line may have: no newline, no byte 0 and no control byte.
    InLine,
}

pub(crate) fn is_blank(b: u8) -> bool
    ensures { result ≡ is_blank b }
{
    (b == b' ') | (b == b'\t')
}

pub fn is_quote(b: u8) -> bool
    ensures { result ≡ is_quote b }
{
    (b == b'"') | (b == b'\'')
}

fn is_account(b: u8) -> bool
    ensures { result ≡ is_account b }
{
    b.is_ascii_alphabetic() | (b.is_ascii_digit() | ((b == b'_') | ((b == b'-') | (b == b'.'))))
}

// Control bytes: none but newline and tab are text.
fn is_control(b: u8) -> bool
    ensures { result ≡ is_control b }
{
    ((1 <= b) & (b <= 8)) | (((11 <= b) & (b <= 31)) | (b == 127))
}

// What a line may have. Most bytes can be printed, and are told by one look.
fn is_in_line(b: u8) -> bool
    ensures { result ≡ of_class InLine b }
{
    if (b' ' <= b) & (b < 127) {
        return true;
    }
    !((b == b'\n') | ((b == 0) | is_control(b)))
}

pub fn is_in(class: Class, b: u8) -> bool
    ensures { result ≡ of_class class b }
{
    match class {
        Class::Blank => is_blank(b),
        Class::Solid => !is_blank(b),
        Class::Name => !(is_blank(b) | ((b == b'=') | is_quote(b))),
        Class::Account => is_account(b),
        Class::Not(other) => b != other,
        Class::InLine => is_in_line(b),
    }
}
