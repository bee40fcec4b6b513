// A table in two walks over its lines: one measures its records and its normal text, the other writes the records.
ghost use Rattle.std.specs.Prelude.{◌≡◌};
ghost use Rattle.octets.specs.Clipped.{clipped};
ghost use Rattle.crontab.specs.Tables.{table_of, refusal_in};
ghost use Rattle.normal.specs.Meanings.{of_user, meaning_of};
ghost use Rattle.normal.specs.Inner.{measured, text_refusal};
ghost use Rattle.records.specs.Formats.{records_of};
ghost use Rattle.records.specs.Calls.{compiled};

use crate::pack;
use crontab::{MAX_TABLE, item};
use field::Dialect;
use line::{Kind, MAX_LINE, Rules};
use normal::text;
use refusal::Refusal;

// What is answered where the buffer has room. The table's own refusal comes before a line that would be too long, wherever that stands.
fn measure(s: &[u8], dialect: Dialect) -> Result<usize, Refusal>
    ensures { result ≡ measured (text_refusal dialect s.now) (records_of (meaning_of dialect s.now)) }
{
    if MAX_TABLE < s.len() {
        return Err(Refusal::TableTooLong);
    }
    let rules = Rules {
        kind: Kind::User,
        dialect,
    };
    let mut no_text: [u8; 1] = [0];
    let mut no_records: [u8; 1] = [0];
    let mut text = 0;
    let mut size = 0;
    let mut short = true;
    let mut c = item::START;
    while c.at < s.len() {
        let step = item::next_item(s, rules, c)?;
        c = step.next;
        let item = step.item;
        let next = text::write(s, item, &mut no_text, text);
        short = short & (next - text <= MAX_LINE + 1);
        text = next;
        size = pack::write_record(s, item, &mut no_records, size);
    }
    if short & (text <= MAX_TABLE) {
        return Ok(size);
    }
    Err(Refusal::TooLong)
}

// Writes the records of a good table to the front of a buffer, as far as they fit.
fn write(s: &[u8], dialect: Dialect, out: &mut [u8])
    requires { refusal_in (table_of (of_user dialect) s.now) ≡ 0 }
    ensures { out.new ≡ clipped 0 (records_of (meaning_of dialect s.now)) out.old }
{
    let rules = Rules {
        kind: Kind::User,
        dialect,
    };
    let mut at = 0;
    let mut c = item::START;
    while c.at < s.len() {
        let Ok(step) = item::next_item(s, rules, c) else {
            return;
        };
        c = step.next;
        at = pack::write_record(s, step.item, out, at);
    }
}

// Writes the records of a table in a dialect to the front of a buffer; where it is refused, writes nothing.
pub fn compile(table: &[u8], dialect: Dialect, records: &mut [u8]) -> Result<usize, Refusal>
    ensures answer { result ≡ (compiled dialect table.now records.old).answer }
    ensures records { records.new ≡ (compiled dialect table.now records.old).buffer }
{
    let size = measure(table, dialect)?;
    if records.len() < size {
        return Err(Refusal::TooShort);
    }
    write(table, dialect, records);
    Ok(size)
}
