// A visit to a keeper, proved once for every keeper.
#![tactic(auto)]

ghost use Rattle.std.specs.Prelude.{◌≡◌, Ok};
ghost use Rattle.keeper.specs.Answers.{ask_stamp};
ghost use Rattle.piles.specs.Visits.{plan, seen_of, Puts, Reports};

use keeper::Keeper;
use keeper::admit::Header;
use keeper::fault::KeeperFault;
use order::event::Event;

pub mod stacks;

// A stamp to put in.
#[derive(Clone, Copy)]
pub struct Draft<'a> {
    pub post: u8,
    pub header: Header,
    pub entries: &'a [u16],
}

// The number that a stamp got, and the cells that its post paid for it.
#[derive(Clone, Copy, PartialEq, Eq, Debug)]
pub struct Put {
    pub number: u16,
    pub paid: usize,
}

// What a keeper tells of a stamp, with the entry for one post.
#[derive(Clone, Copy, PartialEq, Eq, Debug)]
pub struct Seen {
    pub header: Header,
    pub marked: bool,
    pub entry: Result<u16, KeeperFault>,
}

#[derive(Clone, Copy, PartialEq, Eq, Debug)]
pub struct Told {
    pub put: Put,
    pub seen: Seen,
}

#[derive(Clone, Copy, PartialEq, Eq, Debug)]
pub struct Report {
    pub first: Told,
    pub second: Told,
}

fn put_in<K: Keeper>(keeper: &mut K, draft: Draft) -> Result<Put, KeeperFault>
    ensures { K.Keeper.sound keeper.old → K.Keeper.sound keeper.new × Puts (K.Keeper.meaning keeper.old) (K.Keeper.meaning keeper.new) (plan draft.entry) result }
{
    let before = keeper.space(draft.post)?;
    keeper.append(draft.post, draft.header, draft.entries)?;
    let after = keeper.space(draft.post)?;
    let number = keeper.count(draft.post)?;
    Ok(Put {
        number,
        paid: before.saturating_sub(after),
    })
}

fn see<K: Keeper>(keeper: &K, event: Event, asked: u8) -> Result<Seen, KeeperFault>
    ensures { K.Keeper.sound keeper.now → result ≡ ask_stamp (K.Keeper.meaning keeper.now) event (λ s. Ok (seen_of s asked)) }
{
    Ok(Seen {
        header: Header {
            kind: keeper.kind(event)?,
            cover: keeper.cover(event)?,
            full: keeper.full(event)?,
        },
        marked: keeper.marked(event)?,
        entry: keeper.entry(event, asked),
    })
}

// Puts two stamps in, marks the first, and reads both with their entries for the post asked for.
pub fn visit<K: Keeper>(
    keeper: &mut K,
    first: Draft,
    second: Draft,
    asked: u8,
) -> Result<Report, KeeperFault>
    ensures { K.Keeper.sound keeper.old → K.Keeper.sound keeper.new × Reports (K.Keeper.meaning keeper.old) (plan first.entry) (plan second.entry) asked result }
{
    let one = put_in(keeper, first)?;
    let two = put_in(keeper, second)?;
    let marked = Event {
        post: first.post,
        number: one.number,
    };
    let other = Event {
        post: second.post,
        number: two.number,
    };
    keeper.mark(marked)?;
    Ok(Report {
        first: Told {
            put: one,
            seen: see(keeper, marked, asked)?,
        },
        second: Told {
            put: two,
            seen: see(keeper, other, asked)?,
        },
    })
}
