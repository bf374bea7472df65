// Lines of a text protocol, read into commands.
#![tactic(auto)]

mod arguments;
pub mod command;
pub mod fault;
pub mod hex;
pub mod layers;
pub mod parse;
#[cfg(test)]
mod tests;
mod words;
