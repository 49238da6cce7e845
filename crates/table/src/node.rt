// A node of a table, read from its record, and its tests 2, 3 and 4 (document 01, "The recipe table").

ghost use Rattle.std.specs.Prelude.{◌≡◌, ◌+◌, ◌*◌, ◌<◌, eqb, length};
ghost use Rattle.rules.specs.Bytes.{byte_at};
ghost use Rattle.rules.specs.Table.{node_at, all_below};
ghost use Rattle.table.specs.Kinds.{kind_number};
ghost use Rattle.table.specs.Reading.{reading_at, operands_at, unused_zero, named};

use super::kind::{Kind, UnknownKind};
use rules::{Node, Reason, Refusal};

// The nodes that a node names: none, one or two.
#[derive(Clone, Copy)]
pub enum Operands {
    None,
    One(usize),
    Two(usize, usize),
}

impl Operands {
    // "An operand is a node number below the node that names it."
    #[tactic(auto, unfolding(rules::specs::Table::all_below))]
    fn below(self, j: usize) -> bool
        ensures { result ≡ all_below j (named self) }
    {
        match self {
            Operands::None => true,
            Operands::One(k) => k < j,
            Operands::Two(left, right) => left < j && right < j,
        }
    }
}

// A table and a node's number stay two arguments, with the room that they ask: `at` promises its answer to every caller by these,
// and a struct of both with that fact would take its place from two others alone, for a type and its making.

// A node with its tests: the nodes that it names, since the tests ask for no more of it.
pub(crate) fn read(table: &[u8], j: usize) -> Result<Operands, Refusal>
    requires { 8 * j + 7 < length table.now }
    ensures { result ≡ reading_at table.now j }
{
    let Ok(kind) = Kind::try_from(table[8 * j]) else {
        return Err(Reason::Kind.at(j));
    };
    let (unused, operands) = by_kind(table, j, kind);
    if unused != 0 {
        return Err(Reason::UnusedByte.at(j));
    }
    if operands.below(j) {
        Ok(operands)
    } else {
        Err(Reason::Operand.at(j))
    }
}

// The bytes that a kind does not use, added up: 0 exactly if each is 0; and the nodes that it names.
fn by_kind(table: &[u8], j: usize, kind: Kind) -> (usize, Operands)
    requires inside { 8 * j + 7 < length table.now }
    requires says { kind_number kind ≡ byte_at table.now (8 * j) }
    ensures unused { eqb result.0 0 ≡ unused_zero table.now (8 * j) (kind_number kind) }
    ensures operands { result.1 ≡ operands_at table.now j }
{
    let base = 8 * j;
    let second = record::field::byte(table, base + 1);
    let left = record::field::half(table, base + 2);
    let right = record::field::half(table, base + 4);
    let last = record::field::half(table, base + 6);
    match kind {
        Kind::Val => (second + left, Operands::None),
        Kind::Throw => (second + left + right + last, Operands::None),
        Kind::Add => (second + last, Operands::Two(left, right)),
        Kind::Seqn => (second + last, Operands::Two(left, right)),
        Kind::Catch => (second + last, Operands::Two(left, right)),
        Kind::Block => (second + right + last, Operands::One(left)),
        Kind::Unblock => (second + right + last, Operands::One(left)),
    }
}

// A node of an accepted table.
pub fn at(table: &[u8], j: usize) -> Node
    requires { 8 * j + 7 < length table.now }
    ensures { result ≡ node_at table.now j }
{
    let base = 8 * j;
    let left = record::field::half(table, base + 2);
    let right = record::field::half(table, base + 4);
    match Kind::try_from(table[base]) {
        Ok(Kind::Val) => Node::Val(numbers::lanes::signed(record::field::word(table, base + 4))),
        Ok(Kind::Throw) => Node::Throw,
        Ok(Kind::Add) => Node::Add(left, right),
        Ok(Kind::Seqn) => Node::Seqn(left, right),
        Ok(Kind::Catch) => Node::Catch(left, right),
        Ok(Kind::Block) => Node::Block(left),
        Ok(Kind::Unblock) => Node::Unblock(left),
        Err(UnknownKind) => Node::Throw,
    }
}
