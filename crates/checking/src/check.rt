// Checking a list of node records.
ghost use Rattle.std.specs.Prelude.{◌≡◌, ◌||◌, Ok, Err, Result, MatchResult};
ghost use Rattle.rules.specs.declared.node.Var.TheVariants.{V0, V1, V2, V3};
ghost use Rattle.checking.specs.Links.{node};
ghost use Rattle.checking.specs.FreeSets.{is_free as free_in};
ghost use Rattle.checking.specs.Answer.{assessed, answer_of};
ghost use Rattle.checking.specs.Meaning.{Says, Alone};
ghost use Rattle.checking.specs.Made.{Facts, Made};

use crate::fault::CheckFault;
use crate::free::free_sets;
use crate::links::Links;
use crate::nodes::Nodes;
use crate::relation::Relation;
use crate::rule::Rule;
use crate::set::{FreeSets, is_free};
use crate::weight::lowest_too_heavy;
use rules::node::Var;
use rules::record::{MOST_NODES, NodeRecord};

// Whether a variable is free in node 0.
fn open_at_start(free: &FreeSets) -> bool
    ensures { result ≡ (free_in free.now V0 0 || (free_in free.now V1 0 || (free_in free.now V2 0 || free_in free.now V3 0))) }
{
    Var::ALL.iter().any(|v| is_free(free, *v, 0))
}

// Free variables and ranks, unless the nodes are no rule.
fn assess(nodes: &Nodes) -> Result<(FreeSets, [u8; MOST_NODES]), CheckFault>
    ensures { MatchResult result (λ p. (assessed (node nodes.now.list) ≡ Ok tt) × Facts (node nodes.now.list) p.0 p.1) (λ e. assessed (node nodes.now.list) ≡ Err e) }
{
    let paths = Relation::paths(Links::Unguarded, nodes);
    if let Some(n) = paths.lowest_on_loop() {
        return Err(CheckFault::Loop(n));
    }
    if let Some(n) = lowest_too_heavy(&nodes.list) {
        return Err(CheckFault::TooHeavy(n));
    }
    let free = free_sets(nodes);
    if open_at_start(&free) {
        return Err(CheckFault::FreeAtStart);
    }
    Ok((free, paths.ranks()))
}

// Checks a list of records, written by anyone, and writes the rule that it is; a refusal leaves the rule as it was. The answer
// is the one that fits the list (`Says`), and no other answer does (`Alone`).
pub fn check(list: &[NodeRecord], rule: &mut Rule) -> Result<(), CheckFault>
    ensures answer { result ≡ answer_of list.now }
    ensures says { Says list.now result }
    ensures alone { Alone list.now result }
    ensures rule { MatchResult result (λ _. Made list.now rule.new) (λ _. rule.new ≡ rule.old) }
{
    let nodes = Nodes::of(list)?;
    let (free, rank) = assess(&nodes)?;
    *rule = Rule {
        count: list.len() as u8,
        nodes: nodes.list,
        free,
        rank,
    };
    Ok(())
}
