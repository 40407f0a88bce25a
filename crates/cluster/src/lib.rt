// Clusters of posts that talk together: the partition, the policies that decide on merges, and the cluster rule.
#![tactic(auto)]

pub mod exchanges;
pub mod laws;
pub mod limit;
pub mod outcome;
pub mod partition;
pub mod policy;
