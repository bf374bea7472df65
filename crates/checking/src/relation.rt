// Which node leads to which, by links and by paths.
ghost use Rattle.std.specs.Prelude.{◌≡◌, ℕ, ◌<◌, ◌&&◌, ◌||◌, length, slice_index};
ghost use Rattle.checking.specs.Sets.{holds, count as count_of};
ghost use Rattle.checking.specs.Links.{node, links as links_of};
ghost use Rattle.checking.specs.Paths.{in_row, reach};
ghost use Rattle.checking.specs.Answer.{first};

use crate::links::{Links, target_set};
use crate::lowest::lowest;
use crate::nodes::Nodes;
use crate::set::NodeSet;
use rules::record::MOST_NODES;

fn through(row: NodeSet, k: usize, via: NodeSet) -> NodeSet
    requires { k < 128 }
    ensures { (j : ℕ) → holds result j ≡ (holds row j || (holds row k && holds via j)) }
{
    if row.has(k) { row.join(via) } else { row }
}

// For each node a row, the set of the nodes that it leads to. Checking has fixed memory, so the rows are an array.
#[derive(Clone, Copy)]
pub(crate) struct Relation {
    pub(crate) rows: [NodeSet; MOST_NODES],
}

impl Relation {
    // The links of the nodes.
    fn links(which: Links, nodes: &Nodes) -> Relation
        ensures { (i j : ℕ) → i < 128 → in_row result.rows i j ≡ links_of which (node nodes.now.list) i j }
    {
        // `map` was tried, and did not close: that each node is inside did not reach the closure.
        let mut rows = [NodeSet::NONE; MOST_NODES];
        for (n, node) in nodes.list.iter().enumerate() {
            rows[n] = target_set(which, node);
        }
        Relation { rows }
    }

    // Adds the paths through node `k`.
    fn pass(&mut self, k: usize)
        requires { k < 128 }
        ensures { (i j : ℕ) → i < 128 → in_row self.new.rows i j ≡ (in_row self.old.rows i j || (in_row self.old.rows i k && in_row self.old.rows k j)) }
    {
        let via = self.rows[k];
        for row in self.rows.iter_mut() {
            *row = through(*row, k, via);
        }
    }

    // From links to paths of one or more links. The loop counts, since what it goes over is the number of the node that paths may pass.
    fn close(&mut self)
        ensures { (i j : ℕ) → i < 128 → in_row self.new.rows i j ≡ reach (in_row self.old.rows) 128 i j }
    {
        for k in 0..MOST_NODES {
            self.pass(k);
        }
    }

    // The paths of one or more links.
    pub(crate) fn paths(which: Links, nodes: &Nodes) -> Relation
        ensures { (i j : ℕ) → i < 128 → in_row result.rows i j ≡ reach (links_of which (node nodes.now.list)) 128 i j }
    {
        let mut relation = Relation::links(which, nodes);
        relation.close();
        relation
    }

    // The lowest node that leads to itself.
    pub(crate) fn lowest_on_loop(&self) -> Option<u8>
        ensures { result ≡ first (λ n. in_row self.now.rows n n) 0 128 }
    {
        lowest(|n| self.rows[n as usize].has(n as usize))
    }

    // For each node to how many it leads.
    pub(crate) fn ranks(&self) -> [u8; MOST_NODES]
        ensures wide { length result ≡ 128 }
        ensures sizes { (n : ℕ) → n < 128 → slice_index result n ≡ count_of (in_row self.now.rows n) 128 }
    {
        self.rows.map(|row| row.size())
    }
}
