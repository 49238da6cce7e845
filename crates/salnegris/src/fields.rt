// Answers as numbers (document 01, "One step of the machine" and "Refusal numbers"). No `From`, since each asks that its numbers
// fit 32 bits, and a `From` can ask for nothing.

ghost use Rattle.std.specs.Prelude.{◌≡◌};
ghost use Rattle.salnegris.specs.Fields.{compiled_fields, answer_fields, CompiledFits, AnswerFits};

use super::{AnswerFields, CompiledFields};
use rules::{Answer, End, Refusal};

pub(crate) fn of_compiled(compiled: Result<usize, Refusal>) -> CompiledFields
    requires { CompiledFits compiled }
    ensures { result ≡ compiled_fields compiled }
{
    match compiled {
        Ok(length) => CompiledFields {
            length: length as u32,
            refusal: 0,
            place: 0,
        },
        Err(refusal) => CompiledFields {
            length: 0,
            refusal: numbers::reason::number_of(refusal.reason),
            place: refusal.place as u32,
        },
    }
}

// "Fields that don't apply are 0."
pub(crate) fn of_answer(answer: Answer) -> AnswerFields
    requires { AnswerFits answer }
    ensures { result ≡ answer_fields answer }
{
    let totals = AnswerFields {
        kind: 0,
        number: 0,
        refusal: 0,
        place: 0,
        steps: answer.steps as u32,
        reached: answer.reached as u32,
    };
    match answer.outcome {
        Ok(End::Number(number)) => AnswerFields { number, ..totals },
        Ok(End::Throw) => AnswerFields { kind: 1, ..totals },
        Err(Refusal { reason, place }) => AnswerFields {
            kind: 2,
            refusal: numbers::reason::number_of(reason),
            place: place as u32,
            ..totals
        },
    }
}
