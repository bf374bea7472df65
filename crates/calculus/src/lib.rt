// What a rule permits, how states step at events, and that the two agree.
#![tactic(auto)]

pub mod theorems;
pub mod verdict;
