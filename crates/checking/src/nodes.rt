// The nodes of a list of records.
ghost use Rattle.std.specs.Prelude.{◌≡◌, ℕ, true, MatchResult, Err};
ghost use Rattle.rules.specs.Layout.{most_nodes};
ghost use Rattle.checking.specs.Links.{node as node_in, inside};

use crate::fault::CheckFault;
use rules::layout::decode;
use rules::node::Node;
use rules::record::{MOST_NODES, NodeRecord};

// The nodes of a list of records, then empty ones; their links lead to nodes.
#[derive(Clone, Copy)]
pub struct Nodes {
    pub(crate) list: [Node; MOST_NODES],
    ghost ranged: { (n : ℕ) → inside most_nodes (node_in list n) ≡ true },
}

impl Nodes {
    ghost use Rattle.checking.specs.Answer.{answer_of};
    ghost use Rattle.checking.specs.Decoding.{Decoded};

    // The nodes of a list of records; else that their count is wrong, or the first record that breaks a line of the layout.
    pub(crate) fn of(list: &[NodeRecord]) -> Result<Nodes, CheckFault>
        ensures { MatchResult result (λ ns. Decoded list.now ns.list) (λ e. answer_of list.now ≡ Err e) }
    {
        if list.len() < 1 || list.len() > MOST_NODES {
            return Err(CheckFault::BadCount);
        }
        let count = list.len() as u8;
        let mut nodes = [Node::Empty; MOST_NODES];
        // By a rule of the project the caller's records are read by index.
        for n in 0..list.len() {
            nodes[n] = decode(&list[n], count).ok_or(CheckFault::BadLayout(n as u8))?;
        }
        Ok(Nodes { list: nodes })
    }
}
