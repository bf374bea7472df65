// Sets of nodes.
ghost use Rattle.std.specs.Prelude.{◌≡◌, ℕ, ◌<◌, ◌&&◌, ◌||◌, ◌==◌};
ghost use Rattle.checking.specs.Sets.{holds, count as count_of, any_below};
ghost use Rattle.checking.specs.FreeSets.{is_free};

use rules::by_var::ByVar;
use rules::node::Var;
use rules::record::MOST_NODES;

// A set of nodes, a bit for each. That of types in `events` is of another size: one generic in its number would be no plainer.
#[derive(Clone, Copy)]
pub struct NodeSet {
    pub bits: u128,
}

impl NodeSet {
    pub(crate) const NONE: NodeSet = NodeSet { bits: 0 };

    pub(crate) fn one(n: usize) -> NodeSet
        requires { n < 128 }
        ensures { (j : ℕ) → holds result j ≡ (n == j) }
    {
        NodeSet { bits: 1u128 << n }
    }

    pub(crate) fn has(self, n: usize) -> bool
        requires { n < 128 }
        ensures { result ≡ holds self n }
    {
        (self.bits >> n) % 2 == 1
    }

    pub(crate) fn join(self, other: NodeSet) -> NodeSet
        ensures { (j : ℕ) → holds result j ≡ (holds self j || holds other j) }
    {
        NodeSet {
            bits: self.bits | other.bits,
        }
    }

    // How many nodes.
    pub(crate) fn size(self) -> u8
        ensures { result ≡ count_of (holds self) 128 }
    {
        self.bits.count_ones() as u8
    }

    // Whether a node is in both.
    pub(crate) fn meets(self, other: NodeSet) -> bool
        ensures { result ≡ any_below (λ j. holds self j && holds other j) 128 }
    {
        self.bits & other.bits != 0
    }

    // The nodes that pass a test.
    pub(crate) fn filled<F: Fn(usize) -> bool>(test: F) -> NodeSet
        requires { (n : ℕ) → n < 128 → F.pre test n }
        ensures { (n : ℕ) → n < 128 → F.post test n (holds result n) }
    {
        let mut set = NodeSet::NONE;
        for n in 0..MOST_NODES {
            if test(n) {
                set = set.join(NodeSet::one(n));
            }
        }
        set
    }
}

// For each variable the nodes in which it is free.
pub type FreeSets = ByVar<NodeSet>;

// Whether a variable is free in a node; in none past the last.
pub(crate) fn is_free(free: &FreeSets, v: Var, n: u8) -> bool
    ensures { result ≡ is_free free.now v n }
{
    (n as usize) < MOST_NODES && free.get(v).has(n as usize)
}
