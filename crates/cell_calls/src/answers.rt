//! What questions are answered.
ghost use Rattle.std.specs.Prelude.{◌≡◌};
ghost use Rattle.cell_calls.specs.Answers.{value_told};

use imm_base::Val;
use plain_model::Answer;

/// The value that a question was answered, if it was one.
pub(crate) fn value_told(answer: &Answer) -> Option<Val>
    ensures { result ≡ value_told answer.now }
{
    match answer {
        Answer::Value(value) => Some(*value),
        _ => None,
    }
}
