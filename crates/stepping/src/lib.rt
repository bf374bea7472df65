// The steps of held states at an event.
#![tactic(auto)]

mod adding;
pub mod fault;
pub mod held;
mod holding;
mod joining;
mod outcome;
mod outcomes;
mod step;
