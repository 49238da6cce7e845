// One step of the machine (document 01, "One step of the machine"). A state is handed to a step by value, and the next state is
// handed back, or why there is none: a push onto 512 items (13), or no rule for the instruction (14). Which it is goes by a match,
// since the instructions are a closed list.

ghost use Rattle.machine.specs.States.{Steppable, Steps};

use super::item::Stack;
use super::state::{Machine, Mode};
use rules::{Instruction, Item, Reason};

impl Machine {
    // Unwinding comes first: it reads no schedule, and no recall cuts it.
    pub(crate) fn step(
        self,
        code: &[u8],
        schedule: &[u8],
        stack: &mut Stack,
    ) -> Result<Self, Reason>
        requires { Steppable code.now self }
        ensures { Steps code.now schedule.now stack.old self result stack.new }
    {
        let Mode::Running(address) = self.mode else {
            return Ok(self.unwind(stack));
        };
        let present = self.status;
        if record::schedule::strikes(present, schedule, self.reached) {
            return Ok(self.thrown());
        }
        match code::instruction::at(code, address) {
            Instruction::Push(n) => self.push(stack, address, Item::Number(n), present),
            Instruction::Throw => Ok(self.thrown()),
            Instruction::Add => self.add(stack, address),
            Instruction::Pop => self.pop(stack, address),
            Instruction::Mark(target) => self.push(stack, address, Item::Handler(target), present),
            Instruction::Unmark(target) => self.unmark(stack, target),
            Instruction::Set(status) => self.push(stack, address, Item::Saved(present), status),
            Instruction::Reset => self.reset(stack, address),
        }
    }
}
