// The checked rule.
ghost use Rattle.std.specs.Prelude.{◌≡◌, ℕ, ◌<◌, ◌≤◌, true, false, [], ◌∷◌, replicate, slice_index};
ghost use Rattle.rules.specs.declared.node.Var.{Var as V};
ghost use Rattle.rules.specs.declared.node.Node.TheVariants.{Empty};
ghost use Rattle.checking.specs.declared.links.Links.TheVariants.{Unguarded};
ghost use Rattle.checking.specs.Links.{node as node_in, inside, link, names, targets, Falls};
ghost use Rattle.checking.specs.Weights.{Weigh};
ghost use Rattle.checking.specs.FreeSets.{is_free, passed, no_sets};
ghost use Rattle.checking.specs.Answer.{on_loop, heavy};

use crate::set::{FreeSets, NodeSet, is_free};
use crate::weight::{node_at, remaining};
use rules::node::{Node, Var};
use rules::record::MOST_NODES;

// The most that a node of a rule weighs.
pub const MOST_WEIGHT: u16 = 1000;

// A checked rule: nothing outside this crate can make one but by checking, or the rule of one empty node. Past `count` the
// nodes are empty. The invariants are what a recursion over the nodes needs: children are nodes of the rule, no node is on
// a loop or too heavy, the rank falls at every link that no prefix guards, what a node's pattern names is free there and
// stays free up the links that do not bind it, and no variable is free in node 0. A rule has fixed memory, so its nodes
// are an array with a count, and ranks one beside it, as the invariants name them.
#[derive(Clone, Copy)]
pub struct Rule {
    pub(crate) count: u8,
    pub(crate) nodes: [Node; MOST_NODES],
    pub(crate) free: FreeSets,
    pub(crate) rank: [u8; MOST_NODES],
    ghost some: { 0 < count },
    ghost most: { count ≤ 128 },
    ghost ranged: { (n : ℕ) → inside count (node_in nodes n) ≡ true },
    ghost loopless: { (n : ℕ) → on_loop (node_in nodes) n ≡ false },
    ghost light: { (n : ℕ) → heavy (node_in nodes) n ≡ false },
    ghost falls: { (n c : ℕ) → link Unguarded (node_in nodes n) c ≡ true → slice_index rank c < slice_index rank n },
    ghost named: { (v : V) (n : ℕ) → names v (node_in nodes n) ≡ true → is_free free v n ≡ true },
    ghost carried: { (v : V) (n c : ℕ) → passed free (node_in nodes n) n c v ≡ true },
    ghost closed: { (v : V) → is_free free v 0 ≡ false },
}

impl Rule {
    // The rule of one empty node.
    pub fn empty() -> Rule
        ensures count { result.count ≡ 1 }
        ensures nodes { result.nodes ≡ replicate 128 Empty }
        ensures free { result.free ≡ no_sets }
        ensures rank { result.rank ≡ replicate 128 0 }
    {
        Rule {
            count: 1,
            nodes: [Node::Empty; MOST_NODES],
            free: FreeSets::all(NodeSet::NONE),
            rank: [0; MOST_NODES],
        }
    }

    // How many nodes the rule has.
    pub fn count(&self) -> u8
        ensures { result ≡ self.now.count }
    {
        self.count
    }

    // A node, whose unguarded links all lead to lower ranks; the empty node past the end.
    pub fn node(&self, n: u8) -> Node
        ensures is { result ≡ node_in self.now.nodes n }
        ensures falls { Falls self.now.rank (slice_index self.now.rank n) (targets Unguarded result) }
    {
        node_at(&self.nodes, n)
    }

    // Whether a variable is free in a node; in none past the end.
    pub fn is_free(&self, v: Var, n: u8) -> bool
        ensures { result ≡ is_free self.now.free v n }
    {
        is_free(&self.free, v, n)
    }

    // A node's rank: how many nodes unguarded links lead to; 0 past the end.
    pub fn rank(&self, n: u8) -> u8
        ensures { result ≡ slice_index self.now.rank n }
    {
        self.rank.get(n as usize).copied().unwrap_or(0)
    }

    // A node's weight; past the end that of the empty node.
    pub fn weight(&self, n: u8) -> u16
        ensures { Weigh (node_in self.now.nodes) (n ∷ []) result }
    {
        // No node of a checked rule is too heavy.
        MOST_WEIGHT - remaining(&self.nodes, n, MOST_WEIGHT).unwrap()
    }
}
