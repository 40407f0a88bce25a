// The station run by example, over the supplied keepers, stacks of layers and both policies.
#![tactic(auto)]

#[cfg(test)]
mod tests;
