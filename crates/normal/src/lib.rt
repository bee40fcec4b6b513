// What a user table means (P1), and its normal form (P2); and what a line can mean (P11).
#![tactic(auto)]

pub mod entry;
pub mod proper;
pub mod setting;
mod table;
pub mod text;

ghost use Rattle.std.specs.Prelude.{◌≡◌};
ghost use Rattle.normal.specs.NormalForms.{normal_form};

use field::Dialect;
use refusal::Refusal;

// Writes the normal text of a table in a dialect to the front of a buffer, and answers its length; where it is refused, writes nothing.
pub fn normal_form(table: &[u8], dialect: Dialect, text: &mut [u8]) -> Result<usize, Refusal>
    ensures answer { result ≡ (normal_form dialect table.now text.old).answer }
    ensures text { text.new ≡ (normal_form dialect table.now text.old).buffer }
{
    let mut none: [u8; 1] = [0];
    let size = table::write(table, dialect, &mut none)?;
    if text.len() < size {
        return Err(Refusal::TooShort);
    }
    table::write(table, dialect, text)
}
