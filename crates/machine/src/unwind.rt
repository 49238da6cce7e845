// One step of the machine, unwinding (document 01, "One step of the machine").

ghost use Rattle.machine.specs.States.{Unwindable, Unwinds};

use super::item::{self, Stack};
use super::state::{Machine, Mode};
use rules::Item;

impl Machine {
    // "A step removes the top item: a number is dropped, a saved status is restored, a handler makes the state running at its
    // address." It reads no schedule, and reaches no instruction.
    pub(crate) fn unwind(self, stack: &Stack) -> Self
        requires { Unwindable self }
        ensures { Unwinds stack.now self result }
    {
        let height = self.height - 1;
        let next = Self {
            mode: Mode::Unwinding,
            height,
            ..self.unwound()
        };
        match item::at(stack, height) {
            Item::Number(_) => next,
            Item::Handler(address) => Self {
                mode: Mode::Running(address),
                ..next
            },
            Item::Saved(status) => Self { status, ..next },
        }
    }
}
