// Events of every kind: what they mean, and how they are queried.
#![tactic(auto)]

pub mod derived;
pub mod event;
pub mod fields;
pub mod meaning;
pub mod noting;
pub mod types;
