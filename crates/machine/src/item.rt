// The items of the stack, eight bytes each in the front of the lent stack buffer: a tag, three zero bytes and an operand. A saved
// status is told by the tag alone.

ghost use Rattle.std.specs.Prelude.{◌≡◌, ◌<◌};
ghost use Rattle.rules.specs.Limits.{item_limit};
ghost use Rattle.machine.specs.Items.{item_at, Storable, Stored};

use super::state::Machine;
use rules::{Item, Status};

// The bytes of the buffer that the items stand in. What lies past them is not lent to a step.
pub(crate) type Stack = [u8; Machine::STACK_BYTES];

// The item at this place, counted from the bottom.
pub(crate) fn at(stack: &Stack, k: usize) -> Item
    requires { k < item_limit }
    ensures { result ≡ item_at stack.now k }
{
    let base = 8 * k;
    let operand = record::field::word(stack, base + 4);
    match record::field::byte(stack, base) {
        0 => Item::Number(numbers::lanes::signed(operand)),
        1 => Item::Handler(operand as usize),
        2 => Item::Saved(Status::Blocked),
        _ => Item::Saved(Status::Unblocked),
    }
}

// An item put at this place.
pub(crate) fn put(stack: &mut Stack, k: usize, item: Item)
    requires { Storable k item }
    ensures { Stored stack.old k item stack.new }
{
    let base = 8 * k;
    match item {
        Item::Number(n) => record::field::put(stack, base, 0, numbers::lanes::residue(n)),
        Item::Handler(target) => record::field::put(stack, base, 1, target as u32),
        Item::Saved(status) => match status {
            Status::Blocked => record::field::put(stack, base, 2, 0),
            Status::Unblocked => record::field::put(stack, base, 3, 0),
        },
    }
}
