// Matching an event with a pattern.
ghost use Rattle.std.specs.Prelude.{◌≡◌};
ghost use Rattle.calculus.specs.Matching.{bind_slot, bind as bind_of, passes_at};
ghost use Rattle.calculus.specs.Graphs.{graph_of};

use crate::substitution::{NO_NUMBERS, assign, lookup};
use checking::rule::Rule;
use events::meaning::Meaning;
use rules::node::{Node, Pattern, Slot};
use rules::substitution::Substitution;

// The binding of one slot more, where the slot is as the pattern asks.
fn bind_slot(
    numbers: Substitution,
    slot: Slot,
    held: Option<u32>,
    binding: Substitution,
) -> Option<Substitution>
    ensures { result ≡ bind_slot numbers slot held binding }
{
    match slot {
        Slot::Any => Some(binding),
        Slot::Constant(k) => (held? == k).then_some(binding),
        Slot::Variable(v) => {
            let j = held?;
            match lookup(numbers, v).or(lookup(binding, v)) {
                Some(k) => (j == k).then_some(binding),
                None => Some(assign(binding, v, j)),
            }
        }
    }
}

// The binding under which the event matches the pattern, if it does.
pub fn bind(numbers: Substitution, pattern: Pattern, event: &Meaning) -> Option<Substitution>
    ensures { result ≡ bind_of numbers pattern event.now }
{
    if !event.types.contains(pattern.ty) {
        return None;
    }
    let one = bind_slot(numbers, pattern.player, event.player, NO_NUMBERS)?;
    let two = bind_slot(numbers, pattern.card, event.card, one)?;
    bind_slot(numbers, pattern.strokes, event.strokes, two)
}

// Whether the event passes the filter at a node; a node that is no filter lets every event pass.
pub fn passes(rule: &Rule, n: u8, event: &Meaning) -> bool
    ensures { result ≡ passes_at ((graph_of rule.now).node n) event.now }
{
    match rule.node(n) {
        Node::Filter(pattern, _) => bind(NO_NUMBERS, pattern, event).is_some(),
        Node::Empty | Node::Prefix(_, _) | Node::Pair(_, _, _) | Node::Binder(_, _) => true,
    }
}
