// The winter list: the firings of an entry or of a table, in runs of numbers that the caller lends.
ghost use Rattle.std.specs.Prelude.{◌≡◌};
ghost use Rattle.firings.specs.Rising.{Few};
ghost use Rattle.eremothyn.specs.Lists.{filled_number};
ghost use Rattle.eremothyn.specs.Calls.{firings_call, firings_run, merged_firings_call, merged_firings_minutes, merged_firings_entries};

use crate::answer::answer;
use crate::rules::rules_of;
use firings::Filled;
use refusal::Refusal;

// Added to a count where more remain.
const MORE: u64 = 8_589_934_592;

// How many were filled and whether more remain, or the refusal.
#[tactic(auto, unfolding(crate::specs::Lists::filled_number, crate::specs::Answer::answer_of))]
fn filled_number(filled: Result<Filled, Refusal>) -> u64
    requires { Few filled }
    ensures { result ≡ filled_number filled }
{
    match filled {
        Ok(Filled::All(n)) => n as u64,
        Ok(Filled::More(n)) => MORE + n as u64,
        Err(refusal) => answer(Err(refusal)),
    }
}

#[unsafe(no_mangle)]
pub extern "C" fn eremothyn_firings(
    table: &[u8],
    kind: u64,
    dialect: u64,
    entry: u64,
    a: u64,
    b: u64,
    run: &mut [u32],
) -> u64
    ensures answer { result ≡ firings_call table.now kind dialect entry a b run.old }
    ensures run { run.new ≡ firings_run table.now kind dialect entry a b run.old }
{
    filled_number(firings::of_entry(table, rules_of(kind, dialect), entry, a, b, run))
}

#[unsafe(no_mangle)]
pub extern "C" fn eremothyn_merged_firings(
    table: &[u8],
    kind: u64,
    dialect: u64,
    a: u64,
    b: u64,
    minutes: &mut [u32],
    entries: &mut [u16],
) -> u64
    ensures answer { result ≡ merged_firings_call table.now kind dialect a b minutes.old entries.old }
    ensures minutes { minutes.new ≡ merged_firings_minutes table.now kind dialect a b minutes.old entries.old }
    ensures entries { entries.new ≡ merged_firings_entries table.now kind dialect a b minutes.old entries.old }
{
    filled_number(firings::merged(table, rules_of(kind, dialect), a, b, minutes, entries))
}
