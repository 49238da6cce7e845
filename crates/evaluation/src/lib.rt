// The end of a recipe that no recall strikes, straight from its table (document 01, "What a recipe may end in"). The kinds of nodes
// are a closed list: a match.

#![tactic(auto)]

ghost use Rattle.std.specs.Prelude.{◌≡◌};
ghost use Rattle.rules.specs.Evaluating.{evaluate_answer};
ghost use Rattle.rules.specs.Evaluation.{quiet};
ghost use Rattle.rules.specs.Recipe.{expression_at};
ghost use Rattle.table.specs.Acceptance.{AcceptedNode};

use rules::{End, Node, Refusal};

// The end, or the refusal of the tests 1 to 5.
pub fn evaluate(table: &[u8]) -> Result<End, Refusal>
    ensures { result ≡ evaluate_answer table.now }
{
    let nodes = table::check(table)?;
    Ok(end_of(table, nodes - 1))
}

// Of a node of an accepted table. "The walk down an expression always reaches a smaller node number."
fn end_of(table: &[u8], j: usize) -> End
    requires { AcceptedNode table.now j }
    ensures { result ≡ quiet (expression_at table.now j) }
{
    match table::node::at(table, j) {
        Node::Val(n) => End::Number(n),
        Node::Throw => End::Throw,
        Node::Add(left, right) => {
            let End::Number(n) = end_of(table, left) else {
                return End::Throw;
            };
            let End::Number(m) = end_of(table, right) else {
                return End::Throw;
            };
            End::Number(numbers::lanes::sum(n, m))
        }
        Node::Seqn(left, right) => match end_of(table, left) {
            End::Number(_) => end_of(table, right),
            End::Throw => End::Throw,
        },
        Node::Catch(left, right) => match end_of(table, left) {
            End::Number(n) => End::Number(n),
            End::Throw => end_of(table, right),
        },
        Node::Block(left) => end_of(table, left),
        Node::Unblock(left) => end_of(table, left),
    }
}
