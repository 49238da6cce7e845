// The types that code and definitions share, one of each, in the words of document 01.
// What they mean is said in specs/, which also gives the document's number for each case.

#![tactic(auto)]

mod refused;
mod status_byte;

// "A status is 0, blocked, or 1, unblocked."
#[derive(Clone, Copy)]
pub enum Status {
    Blocked,
    Unblocked,
}

// The recipe table: a node, with the numbers of the nodes that it names.
#[derive(Clone, Copy)]
pub enum Node {
    Val(i32),
    Throw,
    Add(usize, usize),
    Seqn(usize, usize),
    Catch(usize, usize),
    Block(usize),
    Unblock(usize),
}

// The code: an instruction. A target is an address, counted in instructions from 0.
#[derive(Clone, Copy)]
pub enum Instruction {
    Push(i32),
    Throw,
    Add,
    Pop,
    Mark(usize),
    Unmark(usize),
    Set(Status),
    Reset,
}

// "The stack holds numbers, handler addresses and saved statuses."
#[derive(Clone, Copy)]
pub enum Item {
    Number(i32),
    Handler(usize),
    Saved(Status),
}

// What a recipe may end in. A throw is an end like a number, as the rules of evaluation have it, and no failure: so no Result.
#[derive(Clone, Copy)]
pub enum End {
    Number(i32),
    Throw,
}

// The refusals, by their numbers in the document.
#[derive(Clone, Copy)]
pub enum Reason {
    TableSize = 1,
    Kind = 2,
    UnusedByte = 3,
    Operand = 4,
    Uses = 5,
    CodeBuffer = 6,
    Status = 7,
    StackBuffer = 8,
    CodeSize = 9,
    Opcode = 10,
    Field = 11,
    Target = 12,
    StackFull = 13,
    NoRule = 14,
    Steps = 15,
}

// A refusal: why, and where.
#[derive(Clone, Copy)]
pub struct Refusal {
    pub reason: Reason,
    pub place: usize,
}

// What running answers: what a recipe ends in or the refusal, and how far it got.
#[derive(Clone, Copy)]
pub struct Answer {
    pub outcome: Result<End, Refusal>,
    pub steps: usize,
    pub reached: usize,
}
