// Lists of calls made of stations, and the comparison of two stations.
#![tactic(auto)]

pub mod comparing;
pub mod playing;
pub mod replaying;
pub mod shift;
pub mod supplied;
pub mod turns;
