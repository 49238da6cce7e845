// How often each node is an operand, and test 5 on the counts (document 01, "The recipe table").

ghost use Rattle.std.specs.Prelude.{◌≡◌, ◌-◌, ◌≤◌, replicate};
ghost use Rattle.rules.specs.Checking.{checked_by};
ghost use Rattle.rules.specs.Limits.{node_limit};
ghost use Rattle.rules.specs.Refusals.{lowest_refusal};
ghost use Rattle.table.specs.Counts.{count_test, counted, Room};
ghost use Rattle.table.specs.Reading.{named};

use super::NODES;
use super::node::Operands;
use rules::{Reason, Refusal};

#[derive(Drop)]
pub(crate) struct Uses {
    counts: [u16; NODES],
}

impl Uses {
    pub(crate) fn none() -> Self
        ensures { result.counts ≡ replicate node_limit 0 }
    {
        Uses { counts: [0; NODES] }
    }

    // Each node that is named is used once more.
    #[tactic(auto, unfolding(crate::specs::Counts::counted, rules::specs::Table::all_below))]
    pub(crate) fn count(&mut self, operands: Operands)
        requires { Room self.old.counts (named operands) }
        ensures { self.new.counts ≡ counted self.old.counts (named operands) }
    {
        match operands {
            Operands::None => {}
            Operands::One(k) => self.counts[k] += 1,
            Operands::Two(left, right) => {
                self.counts[left] += 1;
                self.counts[right] += 1;
            }
        }
    }

    // "Every node but the last is an operand exactly once."
    pub(crate) fn check(&self, nodes: usize) -> Result<usize, Refusal>
        requires { (1 ≤ nodes) × (nodes ≤ node_limit) }
        ensures { result ≡ checked_by nodes (lowest_refusal (count_test self.now.counts) (nodes - 1)) }
    {
        for (k, count) in self.counts[..nodes - 1].iter().enumerate() {
            if *count != 1 {
                return Err(Reason::Uses.at(k));
            }
        }
        Ok(nodes)
    }
}
