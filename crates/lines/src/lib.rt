// Events as lines of text, and logs of such lines.
#![tactic(auto)]

pub mod fault;
pub mod line;
pub mod log;
mod placed;
mod words;
