// Checking a rule: which lists of node records are a rule, and the checked rule with its free variables and ranks.
#![tactic(auto)]

pub mod check;
pub mod fault;
mod free;
mod links;
mod lowest;
mod nodes;
mod relation;
pub mod rule;
mod set;
mod weight;
