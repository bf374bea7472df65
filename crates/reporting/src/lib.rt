// What is told of a play: its report, one line of text, and the bytes that a fault lies in.
#![tactic(auto)]

pub mod excerpt;
pub mod fault;
pub mod report;
