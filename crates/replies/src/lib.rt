// What is answered to a command, and its text.
#![tactic(auto)]

pub mod reply;
pub mod text;
