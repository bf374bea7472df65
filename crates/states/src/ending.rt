// Whether a node or a state may end.
ghost use Rattle.std.specs.Prelude.{◌≡◌, suc};
ghost use Rattle.calculus.specs.Graphs.{graph_of};
ghost use Rattle.calculus.specs.States.{node_ends, may_end};
ghost use Rattle.states.specs.State.{state};

use crate::tree::Tree;
use checking::rule::Rule;
use rules::node::{Node, Op};

// Whether a node may end, as `may_end` says it of a tree: one function for both would need a trait, and be no plainer.
fn node_ends(rule: &Rule, n: u8) -> bool
    ensures { result ≡ node_ends (graph_of rule.now) (suc ((graph_of rule.now).rank n)) ((graph_of rule.now).node n) }
{
    match rule.node(n) {
        Node::Empty => true,
        Node::Prefix(_, _) => false,
        Node::Pair(op, a, b) => match op {
            Op::Or => node_ends(rule, a) || node_ends(rule, b),
            Op::And | Op::Concat | Op::Shuffle => node_ends(rule, a) && node_ends(rule, b),
        },
        Node::Binder(_, c) => node_ends(rule, c),
        Node::Filter(_, c) => node_ends(rule, c),
    }
}

// Whether a state may end.
pub fn may_end(rule: &Rule, tree: &Tree) -> bool
    ensures { result ≡ may_end (graph_of rule.now) (state tree.now) }
{
    match tree {
        Tree::Leaf(n, _) => node_ends(rule, *n),
        Tree::Pair(op, left, right) => match op {
            Op::Or => may_end(rule, left) || may_end(rule, right),
            Op::And | Op::Concat | Op::Shuffle => may_end(rule, left) && may_end(rule, right),
        },
        Tree::Binder(_, below) | Tree::Filter(_, below) => may_end(rule, below),
    }
}
