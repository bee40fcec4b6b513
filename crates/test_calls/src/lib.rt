// Calls for the tests and benchmarks alone, over plain numbers: the calendar and the schedule as no table shows them. They are
// no part of the C interface.
#![tactic(auto)]

pub mod dates;
pub mod schedules;

ghost use Rattle.std.specs.Prelude.{◌≡◌};
ghost use Rattle.test_calls.specs.Numbers.{number_of};

use refusal::Refusal;

// A minute, or 4,294,967,296 and the refusal's number.
pub(crate) fn number_of(answer: Result<u64, Refusal>) -> u64
    ensures { result ≡ number_of answer }
{
    match answer {
        Ok(minute) => minute,
        Err(refusal) => 4_294_967_296 + u8::from(refusal) as u64,
    }
}
