// Which node leads to which.
ghost use Rattle.std.specs.Prelude.{◌≡◌, ℕ, true};
ghost use Rattle.checking.specs.Sets.{holds};
ghost use Rattle.checking.specs.Links.{listed, targets as targets_of, link, inside, names as names_of, slot_names};

use crate::set::NodeSet;
use rules::node::{Node, Slot, Var};

// Which links to follow: those that no prefix guards, or those along which a variable stays free. Neither an `Option` of a variable nor a
// closure would be plainer: the rule's invariants and its definitions name the two relations.
#[derive(Clone, Copy)]
pub enum Links {
    Unguarded,
    Free(Var),
}

// Where the links of a node lead. Three cases that are matched, so a list of at most two would be no plainer.
#[derive(Clone, Copy)]
pub enum Children {
    None,
    One(u8),
    Two(u8, u8),
}

fn slot_names(v: Var, s: Slot) -> bool
    ensures { result ≡ slot_names v s }
{
    match s {
        Slot::Any => false,
        Slot::Constant(_) => false,
        Slot::Variable(w) => w == v,
    }
}

// Whether the pattern of a node names a variable.
pub(crate) fn names(v: Var, n: &Node) -> bool
    ensures { result ≡ names_of v n.now }
{
    match *n {
        Node::Prefix(p, _) => {
            slot_names(v, p.player) || slot_names(v, p.card) || slot_names(v, p.strokes)
        }
        _ => false,
    }
}

// The children that the links of a node lead to. Which links count for loops, weights and ranks is said here alone.
pub(crate) fn targets(which: Links, n: &Node) -> Children
    ensures { listed result ≡ targets_of which n.now }
{
    match *n {
        Node::Empty => Children::None,
        Node::Prefix(_, t) => match which {
            Links::Unguarded => Children::None,
            Links::Free(_) => Children::One(t),
        },
        Node::Pair(_, a, b) => Children::Two(a, b),
        Node::Binder(w, c) => match which {
            Links::Unguarded => Children::One(c),
            Links::Free(v) => {
                if w == v {
                    Children::None
                } else {
                    Children::One(c)
                }
            }
        },
        Node::Filter(_, c) => Children::One(c),
    }
}

// The same as a set.
pub(crate) fn target_set(which: Links, n: &Node) -> NodeSet
    requires { inside 128 n.now ≡ true }
    ensures { (j : ℕ) → holds result j ≡ link which n.now j }
{
    match targets(which, n) {
        Children::None => NodeSet::NONE,
        Children::One(c) => NodeSet::one(c as usize),
        Children::Two(a, b) => NodeSet::one(a as usize).join(NodeSet::one(b as usize)),
    }
}
