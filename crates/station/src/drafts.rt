// What is decided of a record before anything changes.
use cluster::outcome::Outcome;
use join::vector::Vector;
use keeper::admit::Header;
use order::posts::PostSet;
use order::record::Record;

// What the cluster rule says of a record.
#[derive(Clone, Copy, PartialEq, Eq, Debug)]
pub struct Ruling {
    pub outcome: Outcome,
    pub cover: PostSet,
}

// A record with the stamp that it is to have.
#[derive(Clone, Copy, Debug)]
pub struct Draft {
    pub record: Record,
    pub outcome: Outcome,
    pub header: Header,
    // The full vector of the event, of which the entries for the posts of the cover are kept.
    pub vector: Vector,
}
