// One instruction, written into the lent code (document 01, "The code"). The opcodes are written here alone; `code`, which reads
// them, is no crate that the compiler rests on.

ghost use Rattle.compiler.specs.Walking.{Placeable, Placed};

use rules::Instruction;

// "Byte 0 the opcode, bytes 1 to 3 zero, bytes 4 to 7 the operand, zero where none." The address after it. Each arm has its
// store, since one store after the match took compiling 1.02 times as long.
#[tactic(auto, unfolding(rules::specs::CodeBytes::instruction_bytes))]
pub(crate) fn place(code: &mut [u8], at: usize, instruction: Instruction) -> usize
    requires { Placeable code.old at instruction }
    ensures { Placed code.old at instruction result code.new }
{
    let base = 8 * at;
    match instruction {
        Instruction::Push(n) => record::field::put(code, base, 1, numbers::lanes::residue(n)),
        Instruction::Throw => record::field::put(code, base, 2, 0),
        Instruction::Add => record::field::put(code, base, 3, 0),
        Instruction::Pop => record::field::put(code, base, 4, 0),
        Instruction::Mark(target) => record::field::put(code, base, 5, target as u32),
        Instruction::Unmark(target) => record::field::put(code, base, 6, target as u32),
        Instruction::Set(status) => record::field::put(
            code,
            base,
            7,
            numbers::status::number_of(status),
        ),
        Instruction::Reset => record::field::put(code, base, 8, 0),
    }
    at + 1
}
