// The ends that take no step (document 01, "One step of the machine" and "Refusal numbers").

ghost use Rattle.std.specs.Prelude.{◌≡◌};
ghost use Rattle.rules.specs.Machine.{Over, at_length};
ghost use Rattle.machine.specs.States.{state_of};

use super::item::{self, Stack};
use super::state::Machine;
use rules::{End, Item, Reason, Refusal};

impl Machine {
    // "Running at the length with one item, a number, ends in that number."
    pub(crate) fn at_length(self, stack: &Stack, address: usize) -> Result<End, Refusal>
        ensures { Over result ≡ at_length (state_of stack.now self) address }
    {
        if self.height == 1 {
            if let Item::Number(n) = item::at(stack, 0) {
                return Ok(End::Number(n));
            }
        }
        Err(Reason::NoRule.at(address))
    }
}
