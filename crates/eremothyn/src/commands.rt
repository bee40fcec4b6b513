// Commands: splitting one into the buffers that the caller lends, and the length of its standard input.
ghost use Rattle.std.specs.Prelude.{◌≡◌};
ghost use Rattle.eremothyn.specs.Commands.{split_number, input_number};
ghost use Rattle.eremothyn.specs.Calls.{split_command_call, split_command_shell, split_command_input, stdin_length_call};

use crate::answer::{REFUSED, answer};
use crate::rules::rules_of;
use command::Lengths;
use refusal::Refusal;

// The length of the shell line, or the refusal.
#[tactic(auto, unfolding(crate::specs::Commands::split_number, crate::specs::Answer::answer_of))]
fn split_number(split: Result<Lengths, Refusal>) -> u64
    ensures { result ≡ split_number split }
{
    match split {
        Ok(lengths) => lengths.shell as u64,
        Err(refusal) => answer(Err(refusal)),
    }
}

// The length of the input, or "no input".
#[tactic(auto, unfolding(crate::specs::Commands::input_number))]
fn input_number(input: Option<usize>) -> u64
    ensures { result ≡ input_number input }
{
    match input {
        None => REFUSED,
        Some(n) => n as u64,
    }
}

#[unsafe(no_mangle)]
pub extern "C" fn eremothyn_split_command(
    table: &[u8],
    kind: u64,
    dialect: u64,
    entry: u64,
    shell: &mut [u8],
    input: &mut [u8],
) -> u64
    ensures answer { result ≡ split_command_call table.now kind dialect entry shell.old input.old }
    ensures shell { shell.new ≡ split_command_shell table.now kind dialect entry shell.old input.old }
    ensures input { input.new ≡ split_command_input table.now kind dialect entry shell.old input.old }
{
    match crontab::table::find_entry(table, rules_of(kind, dialect), entry) {
        Ok(found) => {
            let start = found.start as usize;
            let end = found.end as usize;
            split_number(command::split(&table[start..end], shell, input))
        }
        Err(refusal) => answer(Err(refusal)),
    }
}

#[unsafe(no_mangle)]
pub extern "C" fn eremothyn_stdin_length(table: &[u8], kind: u64, dialect: u64, entry: u64) -> u64
    ensures { result ≡ stdin_length_call table.now kind dialect entry }
{
    match crontab::table::find_entry(table, rules_of(kind, dialect), entry) {
        Ok(found) => {
            let start = found.start as usize;
            let end = found.end as usize;
            let lengths = command::measure(&table[start..end]);
            let input = lengths.input;
            input_number(input)
        }
        Err(refusal) => answer(Err(refusal)),
    }
}
