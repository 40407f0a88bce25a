// What questions about order answer, and why one is refused.
ghost use Rattle.std.specs.Prelude.{◌≡◌};
ghost use Rattle.station.specs.Faults.{ask_ground};

// How the first of two events stands to the second.
#[derive(Clone, Copy, PartialEq, Eq, Debug)]
pub enum Relation {
    Before,
    After,
    // Neither precedes the other.
    Concurrent,
}

#[derive(Clone, Copy, PartialEq, Eq, Debug)]
pub enum AskFault {
    // The station was opened over a keeper that held a stamp.
    Barred,
    // The slice has not one place for each post.
    SliceLength,
    // The list of events is empty.
    NoEvents,
    // The event named at this place is not held.
    NotHeld { place: usize },
    // The post asked about is not one of the station's.
    UnknownPost,
}

impl AskFault {
    // The number of the ground, as a caller prints it: with values in its variants the enum has no number of its own. By
    // name, since a fault has a place too, which is another number.
    pub fn ground(self) -> u8
        ensures { result ≡ ask_ground self }
    {
        match self {
            AskFault::Barred => 1,
            AskFault::SliceLength => 13,
            AskFault::NoEvents => 14,
            AskFault::NotHeld { .. } => 15,
            AskFault::UnknownPost => 16,
        }
    }
}
