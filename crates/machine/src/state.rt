// The state of the machine, apart from its items, which are kept in the lent stack (document 01, "One step of the machine"). The
// two stay two arguments: handed by value the state keeps to registers, and after a refused step the loop still has it.

ghost use Rattle.std.specs.Prelude.{◌≡◌};
ghost use Rattle.machine.specs.States.{fresh_of, place_of, onward_of, unwound_of, Counting};

use rules::Status;

#[derive(Clone, Copy)]
pub enum Mode {
    // At this address.
    Running(usize),
    Unwinding,
}

// What a step asks of it (`machine/States.Within`) is no invariant of the type: the page of a step (`machine/EachStep`) speaks of
// every machine.
#[derive(Clone, Copy)]
pub struct Machine {
    pub mode: Mode,
    pub status: Status,
    // How many items the stack holds. They stand in the bytes that the caller lends, and not in a container of ours.
    pub height: usize,
    pub steps: usize,
    pub reached: usize,
}

impl Machine {
    // "A run takes at most 1,535 steps."
    pub const STEPS: usize = 1535;
    // A code has at most 1,023 instructions.
    pub const INSTRUCTIONS: usize = code::INSTRUCTIONS;
    // "The stack holds numbers, handler addresses and saved statuses, 512 items at most", in eight bytes each.
    pub const ITEMS: usize = 512;

    pub const STACK_BYTES: usize = 4096;

    // "A fresh state has address 0, the starting status, an empty stack and zero counts."
    pub(crate) fn new(status: Status) -> Self
        ensures { result ≡ fresh_of status }
    {
        Self {
            mode: Mode::Running(0),
            status,
            height: 0,
            steps: 0,
            reached: 0,
        }
    }

    // Where a step is refused: while it unwinds none is. A step that answered a whole refusal would need no place told, and took a
    // run longer (docs/MEASURED.md).
    pub(crate) fn place(self) -> usize
        ensures { result ≡ place_of self.mode }
    {
        match self.mode {
            Mode::Running(address) => address,
            Mode::Unwinding => 0,
        }
    }

    // An item was removed in unwinding: a step more, and no instruction is reached.
    pub(crate) fn unwound(self) -> Self
        requires { Counting self }
        ensures { result ≡ unwound_of self }
    {
        Self {
            steps: self.steps + 1,
            ..self
        }
    }

    // An instruction was carried out or cut: both counts grow.
    pub(crate) fn onward(self) -> Self
        requires { Counting self }
        ensures { result ≡ onward_of self }
    {
        Self {
            reached: self.reached + 1,
            ..self.unwound()
        }
    }
}
