// Why a call of a station is refused.
ghost use Rattle.std.specs.Prelude.{◌≡◌};
ghost use Rattle.station.specs.Faults.{take_ground, feed_ground, feed_place};
ghost use Rattle.station.specs.declared.faults.TakeFault.TheVariants.{Record as IllFormed, Keeper as NoRoom};

use cluster::outcome::Outcome;
use keeper::fault::KeeperFault;
use order::record::RecordFault;

// What a take answers: what the cluster rule made of the event, and the number of entries kept of it.
#[derive(Clone, Copy, PartialEq, Eq, Debug)]
pub struct Taken {
    pub outcome: Outcome,
    pub entries: u8,
}

#[derive(Clone, Copy, PartialEq, Eq, Debug)]
pub enum TakeFault {
    // The station was opened over a keeper that held a stamp.
    Barred,
    // The record is ill formed.
    Record(RecordFault),
    // The number is not one more than the post's held count.
    OutOfTurn,
    // A receive's partner is not held.
    PartnerNotHeld,
    // A receive's partner is not a send.
    PartnerNotSend,
    // The send is already received.
    AlreadyReceived,
    // The keeper has no space for the stamp.
    Keeper(KeeperFault),
}

#[derive(Clone, Copy, PartialEq, Eq, Debug)]
pub enum FeedFault {
    // The feed's length is not a multiple of eight.
    Ragged,
    // The record at this byte place is refused.
    Take { place: usize, fault: TakeFault },
}

impl TakeFault {
    // The number of the ground, as a caller prints it: with values in its variants the enum has no number of its own. By
    // name, since a refused feed has a place too, which is another number.
    pub fn ground(self) -> u8
        ensures { result ≡ take_ground self }
    {
        match self {
            TakeFault::Barred => 1,
            TakeFault::Record(fault) => fault.ground(),
            TakeFault::OutOfTurn => 8,
            TakeFault::PartnerNotHeld => 9,
            TakeFault::PartnerNotSend => 10,
            TakeFault::AlreadyReceived => 11,
            TakeFault::Keeper(_) => 12,
        }
    }
}

impl FeedFault {
    // The number of the ground; by name, as for a take.
    pub fn ground(self) -> u8
        ensures { result ≡ feed_ground self }
    {
        match self {
            FeedFault::Ragged => 2,
            FeedFault::Take { fault, .. } => fault.ground(),
        }
    }

    // The byte place of the refused record; 0 for grounds 1 and 2, since a program prints a place with every ground.
    pub fn place(self) -> usize
        ensures { result ≡ feed_place self }
    {
        match self {
            FeedFault::Ragged => 0,
            FeedFault::Take { place, .. } => place,
        }
    }
}

impl From<RecordFault> for TakeFault {
    ghost from_gives = { λ e r. r ≡ IllFormed e };

    fn from(e: RecordFault) -> TakeFault {
        TakeFault::Record(e)
    }
}

impl From<KeeperFault> for TakeFault {
    ghost from_gives = { λ e r. r ≡ NoRoom e };

    fn from(e: KeeperFault) -> TakeFault {
        TakeFault::Keeper(e)
    }
}
