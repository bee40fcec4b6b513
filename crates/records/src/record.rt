// A walk over records, one step for each.
ghost use Rattle.std.specs.Prelude.{◌≡◌, ◌<◌, length};
ghost use Rattle.records.specs.Refusals.{cut_short};
ghost use Rattle.records.specs.InnerReaders.{StepIs};

use crate::body;
use crate::body::Content;
use octets::little_endian;
use refusal::Refusal;

// What the record at a place says, and where its body stands. The next record starts at the body's end.
#[derive(Clone, Copy)]
pub struct Step {
    pub content: Result<Content, Refusal>,
    pub start: usize,
    pub end: usize,
}

// A record that is cut short, or whose length is below 2; none is looked for behind it.
fn cut(s: &[u8]) -> Step
    ensures { (result.content ≡ Err cut_short) × (result.start ≡ length s.now) × (result.end ≡ length s.now) }
{
    Step {
        content: Err(Refusal::CutShort),
        start: s.len(),
        end: s.len(),
    }
}

pub fn advance(s: &[u8], at: usize) -> Step
    requires { at < length s.now }
    ensures { StepIs s.now at result }
{
    let left = s.len() - at;
    if left < 2 {
        return cut(s);
    }
    let length = little_endian::read(s, at, 2) as usize;
    if length < 2 {
        return cut(s);
    }
    if left - 2 < length {
        return cut(s);
    }
    let kind = little_endian::read(s, at + 2, 2) as u16;
    let start = at + 4;
    let end = at + 2 + length;
    Step {
        content: body::read(&s[start..end], kind),
        start,
        end,
    }
}
