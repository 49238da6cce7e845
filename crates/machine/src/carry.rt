// The instructions carried out (document 01, "One step of the machine").

ghost use Rattle.std.specs.Prelude.{ℕ, ◌≡◌, ◌≤◌, ◌<◌, IfOk};
ghost use Rattle.rules.specs.Limits.{item_limit};
ghost use Rattle.rules.specs.declared.Instruction.TheVariants as instruction;
ghost use Rattle.machine.specs.Items.{handler_of, items_of, number_over_of};
ghost use Rattle.machine.specs.States.{thrown_of, Counting, Within, Ready, Carries, Pushes, Replaceable, Replaces};

use super::item::{self, Stack};
use super::state::{Machine, Mode};
use rules::{Item, Reason, Status};

impl Machine {
    // PUSH, MARK and SET: an item more, and the status after it.
    pub(crate) fn push(
        self,
        stack: &mut Stack,
        address: usize,
        item: Item,
        status: Status,
    ) -> Result<Self, Reason>
        requires { Ready address self × (handler_of item < 4294967296) }
        ensures { Pushes item status address stack.old self result stack.new }
    {
        let height = self.height;
        if height == Machine::ITEMS {
            return Err(Reason::StackFull);
        }
        item::put(stack, height, item);
        Ok(Self {
            mode: Mode::Running(address + 1),
            status,
            height: height + 1,
            ..self.onward()
        })
    }

    // THROW, and an instruction that a recall cuts: unwinding begins.
    pub(crate) fn thrown(self) -> Self
        requires { Counting self }
        ensures { result ≡ thrown_of self }
    {
        Self {
            mode: Mode::Unwinding,
            ..self.onward()
        }
    }

    // "POP drops a top number."
    pub(crate) fn pop(self, stack: &mut Stack, address: usize) -> Result<Self, Reason>
        requires { Ready address self }
        ensures { Carries instruction.Pop address stack.old self result stack.new }
    {
        let height = self.height;
        if height == 0 {
            return Err(Reason::NoRule);
        }
        match item::at(stack, height - 1) {
            Item::Number(_) => Ok(Self {
                mode: Mode::Running(address + 1),
                height: height - 1,
                ..self.onward()
            }),
            _ => Err(Reason::NoRule),
        }
    }

    // "ADD replaces the two top numbers by their sum."
    pub(crate) fn add(self, stack: &mut Stack, address: usize) -> Result<Self, Reason>
        requires { Ready address self }
        ensures { Carries instruction.Add address stack.old self result stack.new }
    {
        let (m, below) = self.number_over(stack)?;
        match below {
            Item::Number(n) => Ok(self.replaced(
                stack,
                numbers::lanes::sum(n, m),
                address + 1,
                self.status,
            )),
            _ => Err(Reason::NoRule),
        }
    }

    // "UNMARK needs a number over a handler: it removes the handler, keeps the number, goes on at its target."
    pub(crate) fn unmark(self, stack: &mut Stack, target: usize) -> Result<Self, Reason>
        requires { Within self }
        ensures { (address : ℕ) → Carries (instruction.Unmark target) address stack.old self result stack.new }
    {
        let (n, below) = self.number_over(stack)?;
        match below {
            Item::Handler(_) => Ok(self.replaced(stack, n, target, self.status)),
            _ => Err(Reason::NoRule),
        }
    }

    // "RESET needs a number over a saved status: it restores that status and keeps the number."
    pub(crate) fn reset(self, stack: &mut Stack, address: usize) -> Result<Self, Reason>
        requires { Ready address self }
        ensures { Carries instruction.Reset address stack.old self result stack.new }
    {
        let (n, below) = self.number_over(stack)?;
        match below {
            Item::Saved(status) => Ok(self.replaced(stack, n, address + 1, status)),
            _ => Err(Reason::NoRule),
        }
    }

    // What these three need: a number, and the item that it stands over.
    fn number_over(self, stack: &Stack) -> Result<(i32, Item), Reason>
        requires { self.height ≤ item_limit }
        ensures found { result ≡ number_over_of (items_of stack.now self.height) }
        ensures two { IfOk result (λ _. 2 ≤ self.height) }
    {
        let height = self.height;
        if height < 2 {
            return Err(Reason::NoRule);
        }
        match item::at(stack, height - 1) {
            Item::Number(n) => Ok((n, item::at(stack, height - 2))),
            _ => Err(Reason::NoRule),
        }
    }

    // And what they leave: a number in the place of both, running at an address with a status.
    fn replaced(self, stack: &mut Stack, n: i32, address: usize, status: Status) -> Self
        requires { Replaceable self }
        ensures { Replaces n address status stack.old self result stack.new }
    {
        item::put(stack, self.height - 2, Item::Number(n));
        Self {
            mode: Mode::Running(address),
            status,
            height: self.height - 1,
            ..self.onward()
        }
    }
}
