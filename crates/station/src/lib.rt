// The event station.
#![tactic(auto)]

mod asking;
pub mod asks;
pub mod drafts;
mod entering;
pub mod faults;
mod feeding;
mod judge;
pub mod lists;
mod opening;
mod readers;
mod stamping;
pub mod state;
mod taking;
mod vectors;
