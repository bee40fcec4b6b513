// The line of what a record says, with its newline, written to a lent buffer as far as it fits. What is skipped has none.
ghost use Rattle.octets.specs.Clipped.{Wrote};
ghost use Rattle.records.specs.InnerReaders.{Within, line_found};

use crate::body::Content;
use normal::text::part;
use normal::{entry, setting};
use octets::write;

// Writes it at a place, and answers the place after it.
pub(crate) fn write(body: &[u8], content: Content, out: &mut [u8], at: usize) -> usize
    requires { Within body.now content }
    ensures { Wrote at (line_found body.now content) out.old result out.new }
{
    match content {
        Content::Skipped => at,
        Content::Entry { when, start } => {
            let command = part(body, start, body.len());
            let next = entry::write(when, command, out, at);
            write::byte(out, next, b'\n')
        }
        Content::Setting { value } => {
            let name = part(body, 2, value);
            let value = part(body, value, body.len());
            let next = setting::write(name, value, out, at);
            write::byte(out, next, b'\n')
        }
    }
}
