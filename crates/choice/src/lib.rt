// Policies and piles that are chosen at run time.
#![tactic(auto)]

pub mod opening;
