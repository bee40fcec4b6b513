// A table's normal text, in one walk over its lines: written as far as it fits, and measured.
ghost use Rattle.normal.specs.Meanings.{meaning_of};
ghost use Rattle.normal.specs.Texts.{normal_text};
ghost use Rattle.normal.specs.Inner.{text_refusal, Tried};

use crate::text;
use crontab::{MAX_TABLE, item};
use field::Dialect;
use line::{Kind, MAX_LINE, Rules};
use refusal::Refusal;

// Writes as much of it as fits to the front of a buffer, and answers what the call answers where all of it fits. The table's own refusal comes
// before a line that would be too long, wherever that is.
pub(crate) fn write(s: &[u8], dialect: Dialect, out: &mut [u8]) -> Result<usize, Refusal>
    ensures { Tried (text_refusal dialect s.now) (normal_text (meaning_of dialect s.now)) out.old result out.new }
{
    if MAX_TABLE < s.len() {
        return Err(Refusal::TableTooLong);
    }
    let rules = Rules {
        kind: Kind::User,
        dialect,
    };
    let mut at = 0;
    let mut short = true;
    let mut c = item::START;
    while c.at < s.len() {
        let step = item::next_item(s, rules, c)?;
        c = step.next;
        let next = text::write(s, step.item, out, at);
        short = short & (next - at <= MAX_LINE + 1);
        at = next;
    }
    if short & (at <= MAX_TABLE) {
        return Ok(at);
    }
    Err(Refusal::TooLong)
}
