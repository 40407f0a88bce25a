// Calls of a station and their answers, as values.
use order::event::Event;
use order::posts::PostSet;
use station::asks::{AskFault, Relation};
use station::faults::{FeedFault, TakeFault, Taken};

// One call with its arguments; horizon's slice is written in place.
#[derive(Drop)]
pub enum Turn {
    Take(Vec<u8>),
    Feed(Vec<u8>),
    Relate(Event, Event),
    Reach(Event, u8),
    Horizon(Vec<Event>, Vec<u16>),
    Heard(Vec<Event>),
    Cluster(u8),
}

// What a call answered.
#[derive(Clone, Copy)]
pub enum Answer {
    Took(Result<Taken, TakeFault>),
    Fed(Result<usize, FeedFault>),
    Related(Result<Relation, AskFault>),
    Reached(Result<u16, AskFault>),
    Wrote(Result<(), AskFault>),
    Heard(Result<PostSet, AskFault>),
    Clustered(Result<PostSet, AskFault>),
}
