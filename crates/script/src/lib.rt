// Scripts of turns on one or two stations, and how they are read from a text.
#![tactic(auto)]

pub mod value;
