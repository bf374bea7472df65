// Weights, counted to the limit and no further, since they double with each level.
ghost use Rattle.std.specs.Prelude.{◌≡◌, ℕ, suc, ◌<◌, IfSome};
ghost use Rattle.checking.specs.declared.links.Links.TheVariants.{Unguarded};
ghost use Rattle.checking.specs.Links.{node, targets as targets_of};
ghost use Rattle.checking.specs.Weights.{Weigh, Leaves};
ghost use Rattle.checking.specs.Answer.{first, heavy, weights};

use crate::links::{Children, Links, targets};
use crate::lowest::lowest;
use crate::rule::MOST_WEIGHT;
use rules::node::Node;
use rules::record::MOST_NODES;

// A node; the empty one past the end.
pub(crate) fn node_at(nodes: &[Node; MOST_NODES], n: u8) -> Node
    ensures { result ≡ node nodes.now n }
{
    nodes.get(n as usize).copied().unwrap_or(Node::Empty)
}

// What a node's weight leaves of a limit; none where it is over the limit.
pub(crate) fn remaining(nodes: &[Node; MOST_NODES], n: u8, limit: u16) -> Option<u16>
    ensures less { IfSome result (λ left. left < limit) }
    ensures leaves { (w : ℕ) → Weigh (node nodes.now) (targets_of Unguarded (node nodes.now n)) w → Leaves result limit (suc w) }
{
    let rest = limit.checked_sub(1)?;
    match targets(Links::Unguarded, &node_at(nodes, n)) {
        Children::None => Some(rest),
        Children::One(c) => remaining(nodes, c, rest),
        Children::Two(a, b) => {
            let left = remaining(nodes, a, rest)?;
            remaining(nodes, b, left)
        }
    }
}

// Whether a node weighs over the limit.
fn is_too_heavy(nodes: &[Node; MOST_NODES], n: u8) -> bool
    requires { Weigh (node nodes.now) (targets_of Unguarded (node nodes.now n)) (weights (node nodes.now) 128 (targets_of Unguarded (node nodes.now n))) }
    ensures { result ≡ heavy (node nodes.now) n }
{
    remaining(nodes, n, MOST_WEIGHT).is_none()
}

// The lowest node that weighs over the limit.
pub(crate) fn lowest_too_heavy(nodes: &[Node; MOST_NODES]) -> Option<u8>
    requires { (n : ℕ) → Weigh (node nodes.now) (targets_of Unguarded (node nodes.now n)) (weights (node nodes.now) 128 (targets_of Unguarded (node nodes.now n))) }
    ensures { result ≡ first (heavy (node nodes.now)) 0 128 }
{
    lowest(|n| is_too_heavy(nodes, n))
}
