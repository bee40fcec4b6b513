// What a C caller gets: one number for a value or a refusal.
ghost use Rattle.std.specs.Prelude.{◌≡◌};
ghost use Rattle.eremothyn.specs.Answer.{answer_of};

use refusal::Refusal;

pub(crate) const REFUSED: u64 = 4_294_967_296;

// A value, or the refusal in its place.
pub(crate) fn answer(told: Result<u64, Refusal>) -> u64
    ensures { result ≡ answer_of told }
{
    match told {
        Ok(value) => value,
        Err(refusal) => REFUSED + u8::from(refusal) as u64,
    }
}
