// A piece of a user table's list of firings, as lines of text.
ghost use Rattle.std.specs.Prelude.{length};
ghost use Rattle.crontab_firings.specs.Pieces.{user_table, PieceIs};

use crate::lines;
use field::Dialect;
use firings::Filled;
use line::{Kind, Rules};
use refusal::Refusal;

// More places than a table has entries, so that a piece has all firings of its first minute.
const PLACES: usize = 4096;

// Room for as many lines.
pub const ROOM: usize = PLACES * lines::LINE;

// So many bytes of text, and the minute after which the list goes on.
#[derive(Clone, Copy, Debug, PartialEq, Eq)]
pub struct Piece {
    pub size: usize,
    pub next: u64,
}

// The lines of the firings after minute a, as many as there is room for, but none of the last minute where more remain. The list goes on after
// `next`, which is b where it ends.
pub fn write(table: &[u8], a: u64, b: u64, text: &mut [u8; ROOM]) -> Result<Piece, Refusal>
    ensures { PieceIs (user_table table.now) a b text.old text.new result }
{
    let mut minutes = [0u32; PLACES];
    let mut entries = [0u16; PLACES];
    let rules = Rules {
        kind: Kind::User,
        dialect: Dialect::Rising,
    };
    match firings::merged(table, rules, a, b, &mut minutes, &mut entries)? {
        Filled::All(n) => Ok(Piece {
            size: lines::write(&minutes, &entries, n, text),
            next: b,
        }),
        Filled::More(n) => {
            let last = lines::minute_of(&minutes, n);
            let kept = lines::before_last(&minutes, n, last);
            Ok(Piece {
                size: lines::write(&minutes, &entries, kept, text),
                next: last as u64 - 1,
            })
        }
    }
}
