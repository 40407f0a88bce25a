// Events by name, and their kinds.

// An event is named by its post and its number; a post numbers its events 1, 2, 3 and so on.
#[derive(Clone, Copy, PartialEq, Eq, Debug)]
pub struct Event {
    pub post: u8,
    pub number: u16,
}

// What an event is: something at its post alone, the sending of a message, or the receiving of one; with its code.
#[derive(Clone, Copy, PartialEq, Eq, Debug)]
pub enum Kind {
    Local = 0,
    Send = 1,
    Receive = 2,
}
