// The nodes in which a variable is free.
ghost use Rattle.std.specs.Prelude.{◌≡◌, ℕ, ◌<◌};
ghost use Rattle.rules.specs.declared.node.Var.{Var as V};
ghost use Rattle.rules.specs.ByVar.{at};
ghost use Rattle.checking.specs.Sets.{holds};
ghost use Rattle.checking.specs.Links.{node, names as names_of};
ghost use Rattle.checking.specs.Answer.{free as free_in};

use crate::links::{Links, names};
use crate::nodes::Nodes;
use crate::relation::Relation;
use crate::set::{FreeSets, NodeSet};
use rules::node::Var;

// The nodes whose pattern names a variable.
fn naming(v: Var, nodes: &Nodes) -> NodeSet
    ensures { (n : ℕ) → n < 128 → holds result n ≡ names_of v (node nodes.now.list n) }
{
    NodeSet::filled(|n| names(v, &nodes.list[n]))
}

// The nodes in which a variable is free: those that name it, and those that lead to one along links that keep it free.
fn free_in(v: Var, nodes: &Nodes) -> NodeSet
    ensures { (n : ℕ) → n < 128 → holds result n ≡ free_in (node nodes.now.list) v n }
{
    let paths = Relation::paths(Links::Free(v), nodes);
    let naming = naming(v, nodes);
    NodeSet::filled(|n| naming.has(n) || paths.rows[n].meets(naming))
}

// The same for each variable.
pub(crate) fn free_sets(nodes: &Nodes) -> FreeSets
    ensures { (v : V) (n : ℕ) → n < 128 → holds (at result v) n ≡ free_in (node nodes.now.list) v n }
{
    FreeSets::from_fn(|v| free_in(v, nodes))
}
