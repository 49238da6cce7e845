// The opcodes of instructions, by byte 0 of an instruction's record, and what tests 11 and 12 let pass by the opcode (document 01,
// "The code" and "Refusal numbers").

ghost use Rattle.std.specs.Prelude.{ℕ, ◌≡◌, ◌<◌, ◌^◌, leb};
ghost use Rattle.code.specs.Opcodes.{opcode_number, Decodes};
ghost use Rattle.code.specs.Reading.{operand_fits_at, target_fits_at};

#[derive(Clone, Copy)]
pub(crate) enum Opcode {
    Push = 1,
    Throw = 2,
    Add = 3,
    Pop = 4,
    Mark = 5,
    Unmark = 6,
    Set = 7,
    Reset = 8,
}

// A byte that is the number of no opcode.
#[derive(Clone, Copy)]
pub(crate) struct UnknownOpcode;

impl TryFrom<u8> for Opcode {
    type Error = UnknownOpcode;

    ghost try_from_gives = { Decodes };

    #[tactic(auto, unfolding(rules::specs::CodeBytes::opcodes, rules::specs::Bytes::row_numbered))]
    fn try_from(byte: u8) -> Result<Self, UnknownOpcode> {
        match byte {
            1 => Ok(Opcode::Push),
            2 => Ok(Opcode::Throw),
            3 => Ok(Opcode::Add),
            4 => Ok(Opcode::Pop),
            5 => Ok(Opcode::Mark),
            6 => Ok(Opcode::Unmark),
            7 => Ok(Opcode::Set),
            8 => Ok(Opcode::Reset),
            _ => Err(UnknownOpcode),
        }
    }
}

// By opcode, the greatest operand that test 11 lets pass. A look at a table and no branch, since opcodes come in no order that a
// processor could foresee: with a match on the names a run took 1.18 times as long.
const GREATEST: [u32; 9] = [0, 4294967295, 0, 0, 0, 4294967295, 4294967295, 1, 0];

impl Opcode {
    fn number(self) -> usize
        ensures { result ≡ opcode_number self }
    {
        self as usize
    }

    // "An absent operand not zero, or SET operand not 0 or 1."
    pub(crate) fn greatest(self) -> u32
        ensures { (word : ℕ) → word < 2 ^ 32 → leb word result ≡ operand_fits_at (opcode_number self) word }
    {
        GREATEST[self.number()]
    }

    // "MARK or UNMARK target not above its own address, or above the length."
    #[tactic(auto, unfolding(rules::specs::CodeBytes::opcodes, rules::specs::Bytes::row_numbered, rules::specs::CodeBytes::target_fits))]
    pub(crate) fn target_fits(self, operand: usize, a: usize, length: usize) -> bool
        ensures { result ≡ target_fits_at (opcode_number self) operand a length }
    {
        match self {
            Opcode::Mark | Opcode::Unmark => a < operand && operand <= length,
            _ => true,
        }
    }
}
