// Runs the schedule's functions on the cases in its standard input, and prints for each whether its minute matches and the
// number that the next firing answers. The reference program writes the cases and what must be printed
// (tests/reference/src/bin/schedule_cases.rs).
#![tactic(auto)]

ghost use Rattle.std.specs.Prelude.{◌+◌, ◌<◌, ◌^◌};

use refusal::Refusal;
use schedule::{Schedule, Stars};
use std::io;
use std::io::{ErrorKind, Read};

// The cases are fewer.
const MOST_CASES: u32 = 1_000_000;

fn wide(byte: u8) -> u64
    ensures { result < 256 }
{
    byte as u64
}

// The number in four bytes of a case, the lowest first.
fn quad(case: &[u8; 32], at: usize) -> u64
    requires { at + 3 < 32 }
    ensures { result < 2 ^ 32 }
{
    let low = wide(case[at]) + 256 * wide(case[at + 1]);
    let high = wide(case[at + 2]) + 256 * wide(case[at + 3]);
    low + 65536 * high
}

// A case: the sets of minutes (8 bytes), hours and days (4 each), months (2) and weekdays (1), the flags of the day fields
// (1), four bytes of nothing, and a minute (8).
fn schedule_in(case: &[u8; 32]) -> Schedule {
    let small = quad(case, 16);
    let flags = small / 16_777_216;
    let stars = Stars {
        minutes: false,
        hours: false,
        days: flags % 2 == 1,
        months: false,
        weekdays: flags / 2 % 2 == 1,
    };
    Schedule {
        minutes: quad(case, 0) + 4_294_967_296 * quad(case, 4),
        hours: quad(case, 8) as u32,
        days: quad(case, 12) as u32,
        months: (small % 65536) as u16,
        weekdays: (small / 65536 % 256) as u8,
        stars,
    }
}

// The next firing after a minute, in UTC. A minute off the calendar is refused first.
fn next_after(s: Schedule, minute: u64) -> Result<u64, Refusal> {
    if calendar::LAST_MINUTE < minute {
        return Err(Refusal::NotOnCalendar);
    }
    schedule::local::next_firing_in(s, 0, minute)
}

// The same as a number: 4,294,967,296 and the refusal's number where it is refused.
fn number_after(s: Schedule, minute: u64) -> u64 {
    match next_after(s, minute) {
        Ok(next) => next,
        Err(refusal) => 4_294_967_296 + u8::from(refusal) as u64,
    }
}

fn print(rt: &impl Print, case: &[u8; 32]) -> io::Result<()> {
    let s = schedule_in(case);
    let minute = quad(case, 24) + 4_294_967_296 * quad(case, 28);
    let matches = schedule::matches(s, minute) as u8;
    let number = number_after(s, minute);
    println!(rt; "{matches} {number}")
}

// Reads one case and prints its answers, and says whether there was one.
fn one_case(rt: &impl Print, input: &mut impl Read) -> io::Result<bool> {
    let mut case = [0u8; 32];
    match input.read_exact(&mut case) {
        Ok(()) => {
            print(rt, &case)?;
            Ok(true)
        }
        Err(e) if e.kind() == ErrorKind::UnexpectedEof => Ok(false),
        Err(e) => Err(e),
    }
}

fn main(rt: HostRuntime) -> io::Result<()> {
    let mut input = rt.reader();
    for _ in 0..MOST_CASES {
        if !one_case(&rt, &mut input)? {
            break;
        }
    }
    Ok(())
}
