// The checker of code: the tests 9 to 12 on lent bytes, in document 01's order.

#![tactic(auto)]

pub mod instruction;
mod opcode;

ghost use Rattle.std.specs.Prelude.{◌≡◌};
ghost use Rattle.rules.specs.Checking.{check_answer};
ghost use Rattle.rules.specs.CodeBytes.{code_tests};

use rules::{Reason, Refusal};

// A code has at most 8,184 bytes, eight for each instruction.
pub const INSTRUCTIONS: usize = 1023;

// "9; then each instruction upward for 10, 11, 12." (The walk over a table counts uses on the way; one for both would ask more than
// these three lines.)
pub fn check(code: &[u8]) -> Result<usize, Refusal>
    ensures { result ≡ check_answer code_tests code.now }
{
    let length = record::size::whole(code, INSTRUCTIONS).ok_or(Reason::CodeSize.at(0))?;
    for a in 0..length {
        instruction::read(code, a, length)?;
    }
    Ok(length)
}
