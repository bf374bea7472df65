// Judging a log: each of its lines is shown to a monitor, up to the first fault.
#![tactic(auto)]

pub mod fault;
pub mod judge;
pub mod judgement;
