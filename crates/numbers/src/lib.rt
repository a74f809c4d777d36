// The refusal number of an answer, 0 for a grant: that of the answer on document 01's paper (crate model, specs/Numbers).
#![tactic(auto)]

ghost use Rattle.std.specs.Prelude.{◌≡◌};
ghost use Rattle.model.specs.Numbers.{answer_number};

use model::Refusal;

pub fn number<T>(answer: &Result<T, Refusal>) -> u32
    ensures { result ≡ answer_number answer.now }
{
    match answer {
        Ok(_) => 0,
        Err(e) => u32::from(*e),
    }
}
