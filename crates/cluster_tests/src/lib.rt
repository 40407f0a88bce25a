// What policies, partitions and tables of exchanges answer, by example, and a policy of another kind behind the same
// interface. A crate with tests is proved twice, so they stand apart.
#![tactic(auto)]

pub mod elder;
#[cfg(test)]
mod tests;
