// A status byte from outside, with its test 7 (document 01, "What a recipe may end in" and "Refusal numbers").

ghost use Rattle.std.specs.Prelude.{◌≡◌, Ok, Err, ltb};
ghost use Rattle.rules.specs.Answers.{status_numbered};
ghost use Rattle.rules.specs.Checking.{answer_by};
ghost use Rattle.rules.specs.Refusals.{unless};
ghost use Rattle.rules.specs.declared.Reason.TheVariants.{Status as WrongStatus};

use super::{Reason, Refusal, Status};

impl TryFrom<u8> for Status {
    type Error = Refusal;

    ghost try_from_gives = { λ byte answer. answer ≡ answer_by (unless (ltb byte 2) WrongStatus 0) Err (Ok (status_numbered byte)) };

    #[tactic(auto, unfolding(crate::specs::Checking::answer_by, crate::specs::Refusals::unless))]
    fn try_from(byte: u8) -> Result<Self, Refusal> {
        match byte {
            0 => Ok(Status::Blocked),
            1 => Ok(Status::Unblocked),
            _ => Err(Reason::Status.at(0)),
        }
    }
}
