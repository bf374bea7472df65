// Rules: the words that code and mathematics share, how bytes lay a rule out, and reading them.
#![tactic(auto)]

pub mod by_var;
pub mod fault;
mod fields;
pub mod kind;
pub mod layout;
pub mod map;
pub mod node;
pub mod read;
pub mod record;
pub mod span;
pub mod substitution;
pub mod text;
