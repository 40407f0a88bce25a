// What the keepers and the layers over them answer, by example. A crate with tests is proved twice, so they stand
// apart.
#![tactic(auto)]

#[cfg(test)]
mod every;
#[cfg(test)]
mod limits;
#[cfg(test)]
mod spaces;
