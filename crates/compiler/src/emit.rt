// The code of an expression, written into the lent buffer (document 01, "The code"). The kinds of nodes are a closed list: a match.

ghost use Rattle.compiler.specs.Walking.{Emittable, Emitted};

use super::place::place;
use rules::{Instruction, Node, Status};

// Of a node of an accepted table, from the address `at` on; the address after it. "The walk down an expression always reaches a
// smaller node number." MARK and UNMARK are written once both operands are, when their targets are known. So the code and an
// address stay two arguments: a writer of both would have one address, and a Catch goes back to two others.
pub(crate) fn emit(table: &[u8], j: usize, code: &mut [u8], at: usize) -> usize
    requires { Emittable table.now j code.old at }
    ensures { Emitted table.now j code.old at result code.new }
{
    match table::node::at(table, j) {
        Node::Val(n) => place(code, at, Instruction::Push(n)),
        Node::Throw => place(code, at, Instruction::Throw),
        Node::Add(left, right) => {
            let middle = emit(table, left, code, at);
            let end = emit(table, right, code, middle);
            place(code, end, Instruction::Add)
        }
        Node::Seqn(left, right) => {
            let middle = emit(table, left, code, at);
            let next = place(code, middle, Instruction::Pop);
            emit(table, right, code, next)
        }
        Node::Catch(left, right) => {
            let middle = emit(table, left, code, at + 1);
            let handler = middle + 1;
            let end = emit(table, right, code, handler);
            place(code, at, Instruction::Mark(handler));
            place(code, middle, Instruction::Unmark(end));
            end
        }
        Node::Block(left) => {
            let inner = place(code, at, Instruction::Set(Status::Blocked));
            let end = emit(table, left, code, inner);
            place(code, end, Instruction::Reset)
        }
        Node::Unblock(left) => {
            let inner = place(code, at, Instruction::Set(Status::Unblocked));
            let end = emit(table, left, code, inner);
            place(code, end, Instruction::Reset)
        }
    }
}
