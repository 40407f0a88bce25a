// Records: the eight bytes by which a post reports an event.
ghost use Rattle.std.specs.Prelude.{◌≡◌, ◌+◌, ◌<◌, length, IfOk, slice_index};
ghost use Rattle.order.specs.Reads.{ground, KindRead, record_of, refused, tail_form};
ghost use Rattle.order.specs.Records.{code, form, two_bytes};

use crate::event::{Event, Kind};

// How many bytes a record has.
pub const RECORD_LEN: usize = 8;

// The partner of what is no receive.
const NO_PARTNER: Event = Event { post: 0, number: 0 };

// What a record reports: an event, and of a receive the send that it names. Of any other the partner is 0 in both fields,
// as the bytes have it.
#[derive(Clone, Copy, PartialEq, Eq, Debug)]
pub struct Record {
    pub event: Event,
    pub kind: Kind,
    pub partner: Event,
}

// Why the form of a record is refused, with the number of the ground.
#[derive(Clone, Copy, PartialEq, Eq, Debug)]
pub enum RecordFault {
    // it has not eight bytes
    WrongLength = 3,
    // its kind is none of the three
    UnknownKind = 4,
    // its post is not among the station's
    UnknownPost = 5,
    // its spare byte is set, or a partner's field of what is no receive
    StrayBytes = 6,
    // a receive's partner is at no other of the station's posts
    WrongPartner = 7,
}

impl RecordFault {
    // The number of the ground, as a station answers it: a name for what `as` gives.
    pub fn ground(self) -> u8
        ensures { result ≡ ground self }
    {
        self as u8
    }
}

impl Record {
    // Reads a record that reaches a station of `posts` posts.
    pub fn read(bytes: &[u8], posts: u8) -> Result<Record, RecordFault>
        ensures ground { refused result ≡ form posts bytes.now }
        ensures value { IfOk result (λ t. t ≡ record_of bytes.now) }
    {
        if bytes.len() != RECORD_LEN {
            return Err(RecordFault::WrongLength);
        }
        let kind = Kind::try_from(bytes[1])?;
        let event = event_at(bytes, 0);
        if event.post >= posts {
            return Err(RecordFault::UnknownPost);
        }
        let partner = event_at(bytes, 4);
        check_tail(kind, bytes[5], partner, event.post, posts)?;
        Ok(Record {
            event,
            kind,
            partner,
        })
    }
}

// The code of a kind, and the kind with a code.
impl From<Kind> for u8 {
    ghost from_gives = { λ kind r. r ≡ code kind };

    fn from(kind: Kind) -> u8 {
        kind as u8
    }
}

impl TryFrom<u8> for Kind {
    type Error = RecordFault;

    ghost try_from_gives = { KindRead };

    fn try_from(code: u8) -> Result<Kind, RecordFault> {
        match code {
            0 => Ok(Kind::Local),
            1 => Ok(Kind::Send),
            2 => Ok(Kind::Receive),
            _ => Err(RecordFault::UnknownKind),
        }
    }
}

// A post, a byte of another use, and a number with its high byte first: both halves of a record are laid out so.
fn event_at(bytes: &[u8], place: usize) -> Event
    requires { place + 3 < length bytes.now }
    ensures { result ≡ record { post = slice_index bytes.now place; number = two_bytes bytes.now (place + 2) } }
{
    Event {
        post: bytes[place],
        number: u16::from_be_bytes([bytes[place + 2], bytes[place + 3]]),
    }
}

// Whether an event of this kind at `post`, one of `posts`, may have this spare byte and this partner.
fn check_tail(kind: Kind, spare: u8, partner: Event, post: u8, posts: u8) -> Result<(), RecordFault>
    ensures { refused result ≡ tail_form kind spare partner post posts }
{
    if spare != 0 {
        return Err(RecordFault::StrayBytes);
    }
    match kind {
        Kind::Local | Kind::Send => {
            if partner != NO_PARTNER {
                return Err(RecordFault::StrayBytes);
            }
        }
        Kind::Receive => {
            if partner.post >= posts || partner.post == post {
                return Err(RecordFault::WrongPartner);
            }
        }
    }
    Ok(())
}
