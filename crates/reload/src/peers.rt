// The entries of a table that mean the same as an entry of another table, a bit for each.
ghost use Rattle.std.specs.Prelude.{◌≡◌, length};
ghost use Rattle.crontab.specs.Tables.{table_of};
ghost use Rattle.crontab.specs.Selections.{selected_by};
ghost use Rattle.crontab.specs.Inner.{Sound};
ghost use Rattle.reload.specs.EntryMeanings.{means_as};

use crate::same_meaning::is_same_meaning;
use crontab::entry::Entry;
use crontab::item::Item;
use crontab::select::{Selection, WORDS, add_if};
use crontab::{MAX_TABLE, item};
use line::Rules;
use refusal::Refusal;

// Those of table s that mean what an entry of table t does.
pub(crate) fn read(s: &[u8], rules: Rules, t: &[u8], entry: Entry) -> Result<Selection, Refusal>
    requires { Sound (length t.now) entry }
    ensures { result ≡ selected_by (means_as rules t.now entry s.now) (table_of rules s.now) }
{
    if MAX_TABLE < s.len() {
        return Err(Refusal::TableTooLong);
    }
    let mut members = [0u64; WORDS];
    let mut c = item::START;
    loop {
        let count = c.count;
        let step = item::next_item(s, rules, c)?;
        c = step.next;
        match step.item {
            Item::Nothing => return Ok(Selection { count, members }),
            Item::Entry(other) => add_if(
                &mut members,
                count,
                is_same_meaning(t, entry, s, other, rules),
            ),
            Item::Setting { .. } => {}
        }
    }
}
