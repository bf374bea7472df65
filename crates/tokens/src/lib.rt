// Words of text, as bytes: where one ends, and the number that it is.
#![tactic(auto)]

pub mod numeral;
pub mod pieces;
