// A monitor: it is begun on a checked rule, is shown events of any kind, and answers two counts and a verdict.
#![tactic(auto)]

ghost use Rattle.std.specs.Prelude.{◌≤◌};

use checking::rule::Rule;
use states::tree::Tree;

mod asking;
pub mod fault;
mod showing;
mod text;
pub mod theorem;

// The most events that a monitor is shown.
pub const MOST_SHOWN: u32 = 1_000_000;

// A rule, the states that are held, and how many events were shown and taken. Only beginning and showing make or change one.
#[derive(Drop)]
pub struct Monitor {
    rule: Rule,
    held: Vec<Tree>,
    shown: u32,
    taken: u32,
    ghost counted: { taken ≤ shown },
}

// How many events a monitor was shown, and how many of them it took.
#[derive(Clone, Copy, Debug, PartialEq, Eq)]
pub struct Counts {
    pub shown: u32,
    pub taken: u32,
}
