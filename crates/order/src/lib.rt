// The order of events: posts, events and records, and the theory of happened-before over a history of records.
#![tactic(auto)]

pub mod event;
pub mod laws;
pub mod posts;
pub mod record;
