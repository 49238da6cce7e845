// An instruction of a code, read from its record, and its tests 10, 11 and 12 (document 01, "The code" and "Refusal numbers").

ghost use Rattle.std.specs.Prelude.{◌≡◌, ◌+◌, ◌*◌, ◌<◌};
ghost use lib.ListN.{length};
ghost use Rattle.rules.specs.Code.{target_of};
ghost use Rattle.rules.specs.CodeBytes.{instruction_at};
ghost use Rattle.rules.specs.Bytes.{records};
ghost use Rattle.code.specs.Reading.{reading_at};

use super::opcode::{Opcode, UnknownOpcode};
use rules::{Instruction, Reason, Refusal};

// A code and an address stay two arguments, with the room that they ask: `at` promises its answer to every caller by these.

// An instruction with its tests, in a code of this length.
pub(crate) fn read(code: &[u8], a: usize, length: usize) -> Result<Instruction, Refusal>
    requires { (8 * a + 7 < lib.ListN.length code.now) × (length ≡ records code.now) }
    ensures { result ≡ reading_at code.now a }
{
    let Ok(opcode) = Opcode::try_from(code[8 * a]) else {
        return Err(Reason::Opcode.at(a));
    };
    let padding = record::field::byte(code, 8 * a + 1) + record::field::half(code, 8 * a + 2);
    let operand = record::field::word(code, 8 * a + 4);
    if padding != 0 || opcode.greatest() < operand {
        return Err(Reason::Field.at(a));
    }
    if !opcode.target_fits(operand as usize, a, length) {
        return Err(Reason::Target.at(a));
    }
    Ok(at(code, a))
}

// An instruction of an accepted code.
#[tactic(auto, unfolding(rules::specs::CodeBytes::instruction_at, rules::specs::CodeBytes::opcode_at, rules::specs::CodeBytes::opcodes, rules::specs::Bytes::row_numbered))]
pub fn at(code: &[u8], a: usize) -> Instruction
    requires { 8 * a + 7 < length code.now }
    ensures { (result ≡ instruction_at code.now a) × (target_of result < 4294967296) }
{
    let operand = record::field::word(code, 8 * a + 4);
    match Opcode::try_from(code[8 * a]) {
        Ok(Opcode::Push) => Instruction::Push(numbers::lanes::signed(operand)),
        Ok(Opcode::Throw) => Instruction::Throw,
        Ok(Opcode::Add) => Instruction::Add,
        Ok(Opcode::Pop) => Instruction::Pop,
        Ok(Opcode::Mark) => Instruction::Mark(operand as usize),
        Ok(Opcode::Unmark) => Instruction::Unmark(operand as usize),
        Ok(Opcode::Set) => Instruction::Set(numbers::status::of_number(operand)),
        Ok(Opcode::Reset) => Instruction::Reset,
        Err(UnknownOpcode) => Instruction::Throw,
    }
}
