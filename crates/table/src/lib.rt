// The checker of recipe tables: the tests 1 to 5 on lent bytes, in document 01's order.

#![tactic(auto)]

mod kind;
pub mod node;
mod uses;

ghost use Rattle.std.specs.Prelude.{◌≡◌};
ghost use Rattle.rules.specs.Checking.{check_answer};
ghost use Rattle.rules.specs.Table.{table_tests};

use rules::{Reason, Refusal};
use uses::Uses;

// A table has at most 4,096 bytes, eight for each node.
const NODES: usize = 512;

// "Tests 1; then each node upward for 2, 3, 4; then 5." (The walk over a code counts nothing; one for both would ask more than
// these lines.)
pub fn check(table: &[u8]) -> Result<usize, Refusal>
    ensures { result ≡ check_answer table_tests table.now }
{
    let nodes = record::size::whole(table, NODES).ok_or(Reason::TableSize.at(0))?;
    let mut uses = Uses::none();
    for j in 0..nodes {
        uses.count(node::read(table, j)?);
    }
    uses.check(nodes)
}
