// A user's table, written in its normal form to the buffer that the caller lends.
ghost use Rattle.std.specs.Prelude.{◌≡◌};
ghost use Rattle.eremothyn.specs.NormalForms.{normal_number};
ghost use Rattle.eremothyn.specs.Calls.{normal_form_call, normal_form_text};

use crate::answer::answer;
use crate::rules::dialect_of;
use refusal::Refusal;

// The length of the text, or the refusal.
#[tactic(auto, unfolding(crate::specs::NormalForms::normal_number, crate::specs::Answer::answer_of))]
pub(crate) fn normal_number(written: Result<usize, Refusal>) -> u64
    ensures { result ≡ normal_number written }
{
    match written {
        Ok(size) => size as u64,
        Err(refusal) => answer(Err(refusal)),
    }
}

#[unsafe(no_mangle)]
pub extern "C" fn eremothyn_normal_form(table: &[u8], dialect: u64, text: &mut [u8]) -> u64
    ensures answer { result ≡ normal_form_call table.now dialect text.old }
    ensures text { text.new ≡ normal_form_text table.now dialect text.old }
{
    normal_number(normal::normal_form(table, dialect_of(dialect), text))
}
