// How many instructions a recipe has: what each node brings (document 01's last column), added up along the table (02 §2).

ghost use Rattle.std.specs.Prelude.{◌≡◌};
ghost use Rattle.rules.specs.Code.{code_length};
ghost use Rattle.rules.specs.Recipe.{expression_at};
ghost use Rattle.table.specs.Column.{column};
ghost use Rattle.compiler.specs.Walking.{Measurable};

use rules::Node;

// Of the last node of an accepted table. "Every node stands in the code once."
pub(crate) fn measure(table: &[u8], j: usize) -> usize
    requires { Measurable table.now j }
    ensures { result ≡ code_length (expression_at table.now j) }
{
    let mut length = 0;
    for k in 0..=j {
        length += instructions(table::node::at(table, k));
    }
    length
}

// A node's own, without its operands'.
fn instructions(node: Node) -> usize
    ensures { result ≡ column node }
{
    match node {
        Node::Val(_) => 1,
        Node::Throw => 1,
        Node::Add(_, _) => 1,
        Node::Seqn(_, _) => 1,
        Node::Catch(_, _) => 2,
        Node::Block(_) => 2,
        Node::Unblock(_) => 2,
    }
}
