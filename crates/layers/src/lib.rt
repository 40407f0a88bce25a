// Layers over a keeper, each a keeper itself.
#![tactic(auto)]

pub mod quota;
pub mod shelf;
