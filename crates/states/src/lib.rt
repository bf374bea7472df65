// States in memory, and what a rule's nodes and patterns make of an event.
#![tactic(auto)]

mod copying;
pub mod ending;
pub mod equality;
pub mod matching;
pub mod settling;
pub mod size;
pub mod substitution;
pub mod tree;
