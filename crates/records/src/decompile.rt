// The normal text of records, in one walk: written as far as it fits, and measured. Another walk finds the first bad record.
ghost use Rattle.std.specs.Prelude.{◌≡◌, ◌≤◌};
ghost use Rattle.normal.specs.Texts.{normal_text};
ghost use Rattle.normal.specs.Inner.{Tried};
ghost use Rattle.records.specs.Readings.{decode, decoded_items};
ghost use Rattle.records.specs.Calls.{decompiled, record_fault};
ghost use Rattle.records.specs.InnerReaders.{records_refusal, entries_found};

use crate::body::Content;
use crate::{record, text};
use crontab::{MAX_ENTRIES, MAX_TABLE};
use line::MAX_LINE;
use normal::text::part;
use refusal::Refusal;

#[tactic(auto, unfolding(crate::specs::InnerReaders::entries_found))]
fn entries_found(content: Content) -> usize
    ensures { (result ≡ entries_found content) × (result ≤ 1) }
{
    match content {
        Content::Skipped => 0,
        Content::Entry { .. } => 1,
        Content::Setting { .. } => 0,
    }
}

// Writes as much of the normal text of records as fits to the front of a buffer, and answers what the call answers where all of it fits. A bad
// record comes before all else, wherever it is.
fn write(s: &[u8], out: &mut [u8]) -> Result<usize, Refusal>
    ensures { Tried (records_refusal s.now) (normal_text (decoded_items (decode s.now))) out.old result out.new }
{
    let mut count: usize = 0;
    let mut short = true;
    let mut text = 0;
    let mut at = 0;
    while at < s.len() {
        let step = record::advance(s, at);
        let content = step.content?;
        let next = text::write(part(s, step.start, step.end), content, out, text);
        short = short & (next - text <= MAX_LINE + 1);
        text = next;
        count += entries_found(content);
        at = step.end;
    }
    if MAX_ENTRIES < count {
        return Err(Refusal::TooManyEntries);
    }
    if short & (text <= MAX_TABLE) {
        return Ok(text);
    }
    Err(Refusal::TooLong)
}

// Writes the normal text of records to the front of a buffer; where they are refused, writes nothing.
pub fn decompile(records: &[u8], text: &mut [u8]) -> Result<usize, Refusal>
    ensures answer { result ≡ (decompiled records.now text.old).answer }
    ensures text { text.new ≡ (decompiled records.now text.old).buffer }
{
    let mut none: [u8; 1] = [0];
    let size = write(records, &mut none)?;
    if text.len() < size {
        return Err(Refusal::TooShort);
    }
    write(records, text)
}

// The number of the first bad record, from 1, or 0 where there is none.
pub fn record_fault(s: &[u8]) -> usize
    ensures { result ≡ record_fault s.now }
{
    let mut number = 1;
    let mut at = 0;
    while at < s.len() {
        let step = record::advance(s, at);
        if step.content.is_err() {
            return number;
        }
        number += 1;
        at = step.end;
    }
    0
}
