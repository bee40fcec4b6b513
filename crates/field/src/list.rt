// A comma list of elements.
ghost use Rattle.std.specs.Prelude.{◌≡◌, ◌^◌, ◌<◌};
ghost use Rattle.field.specs.Fields.{list_field};

use crate::values::judge;
use crate::{Allowed, Fault, Limits, element};
use octets::class::Class;
use octets::run::skip;
use refusal::Refusal;

// The elements one after the other. A refusal of an element only counts once all the others are found to be elements.
pub(crate) fn read(s: &[u8], column: usize, limits: Limits) -> Result<Allowed, Fault>
    requires { column < 2 ^ 32 }
    ensures { result ≡ list_field limits column s.now }
{
    let malformed = Fault {
        refusal: Refusal::Malformed,
        column,
    };
    let mut answer = Ok(Allowed {
        set: 0,
        star: false,
    });
    let mut at = 0;
    loop {
        let end = skip(s, at, Class::Not(b','));
        let element = element::read(&s[at..end], limits).ok_or(malformed)?;
        answer = judge(limits, column + at, answer, element);
        if end == s.len() {
            return answer;
        }
        at = end + 1;
    }
}
