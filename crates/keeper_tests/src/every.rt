// One visit that every pile must answer alike, and the faults in their order.
use keeper::Keeper;
use keeper::admit::Header;
use keeper::fault::KeeperFault;
use layers::quota::Quota;
use layers::shelf::Shelf;
use order::event::{Event, Kind};
use order::posts::PostSet;
use piles::stacks::shelf_over_quota;
use piles::{Draft, Put, Report, Seen, Told, visit};
use std::process::Abort;
use std::test::Fail;

// The posts 0 and 2.
const PAIR: u64 = 5;

fn header(kind: Kind, cover: u64, full: u16) -> Header {
    Header {
        kind,
        cover: PostSet::from_bits(cover),
        full,
    }
}

// Puts a stamp of 10 cells and one of 11 into the two posts, whose numbers they get.
fn visited<K: Keeper>(
    rt: &impl Abort,
    pile: &mut K,
    first: Event,
    second: Event,
) -> Result<(), Fail> {
    let one = Draft {
        post: first.post,
        header: header(Kind::Send, PAIR, 7),
        entries: &[5, 1],
    };
    let two = Draft {
        post: second.post,
        header: header(Kind::Receive, 7, 1),
        entries: &[1, 0, 9],
    };
    let expected = Report {
        first: Told {
            put: Put {
                number: first.number,
                paid: 10,
            },
            seen: Seen {
                header: header(Kind::Send, PAIR, 7),
                marked: true,
                entry: Ok(1),
            },
        },
        second: Told {
            put: Put {
                number: second.number,
                paid: 11,
            },
            seen: Seen {
                header: header(Kind::Receive, 7, 1),
                marked: false,
                entry: Ok(9),
            },
        },
    };
    assert_eq!(rt; visit(pile, one, two, 2)?, expected);
    Ok(())
}

// Appends to three posts, of which post 1 has no space.
fn appends_refused<K: Keeper>(rt: &impl Abort, pile: &mut K) {
    let no_space = KeeperFault::NoSpace { wanted: 8, left: 0 };
    let appends: [(u8, u64, &[u16], KeeperFault); 7] = [
        // an unknown post, a bad cover and no space
        (3, 8, &[], KeeperFault::UnknownPost),
        (255, 0, &[0; 65], KeeperFault::UnknownPost),
        // a bad cover and no space: a post too many, an entry too few, an entry too many
        (1, 8, &[1], KeeperFault::BadCover),
        (1, 7, &[1, 2], KeeperFault::BadCover),
        (1, 0, &[1], KeeperFault::BadCover),
        (1, 8, &[], KeeperFault::BadCover),
        (1, 0, &[], no_space),
    ];
    for (post, cover, entries, fault) in appends {
        let local = header(Kind::Local, cover, 0);
        assert_eq!(rt; pile.append(post, local, entries), Err(fault));
    }
}

// The fault of each question on a stamp, of the entry for a post, and of a mark.
fn asked<K: Keeper>(pile: &mut K, event: Event, post: u8) -> [Option<KeeperFault>; 6] {
    [
        pile.kind(event).err(),
        pile.marked(event).err(),
        pile.cover(event).err(),
        pile.full(event).err(),
        pile.entry(event, post).err(),
        pile.mark(event).err(),
    ]
}

// Questions on three posts, of which post 1 has two stamps, the first for posts 0 and 2.
fn questions_refused<K: Keeper>(rt: &impl Abort, pile: &mut K) {
    let unknown = Some(KeeperFault::UnknownPost);
    let not_held = Some(KeeperFault::NotHeld);
    let not_covered = Some(KeeperFault::NotCovered);
    let questions: [(u8, u16, u8, Option<KeeperFault>, Option<KeeperFault>); 8] = [
        // an unknown post, no such stamp, and an entry that is not there
        (3, 0, 1, unknown, unknown),
        (255, 3, 255, unknown, unknown),
        // no such stamp, and an entry that is not there
        (1, 0, 64, not_held, not_held),
        (1, 3, 1, not_held, not_held),
        (1, 65_535, 3, not_held, not_held),
        (1, 1, 1, None, not_covered),
        (1, 2, 64, None, not_covered),
        (1, 1, 0, None, None),
    ];
    for (post, number, other, fault, at_entry) in questions {
        let expected = [fault, fault, fault, fault, at_entry, fault];
        assert_eq!(rt; asked(pile, Event { post, number }, other), expected);
    }
    assert_eq!(rt; pile.count(3), Err(KeeperFault::UnknownPost));
    assert_eq!(rt; pile.space(3), Err(KeeperFault::UnknownPost));
    assert_eq!(rt; pile.count(1), Ok(2));
}

// What a pile for three posts with 42 cells in all, or 21 for each post, must answer.
fn tried<K: Keeper + Drop>(rt: &impl Abort, mut pile: K) -> Result<(), Fail> {
    visited(
        rt,
        &mut pile,
        Event { post: 2, number: 1 },
        Event { post: 0, number: 1 },
    )?;
    visited(
        rt,
        &mut pile,
        Event { post: 1, number: 1 },
        Event { post: 1, number: 2 },
    )?;
    appends_refused(rt, &mut pile);
    questions_refused(rt, &mut pile);
    Ok(())
}

#[test]
fn piles(rt: HostRuntime) -> Result<(), Fail> {
    let mut cells = [0; 42];
    let mut bytes = [0; 126];
    tried(&rt, pool::open(3, &mut cells))?;
    tried(&rt, columns::open(3, &mut bytes))?;
    tried(&rt, Quota::new(pool::open(3, &mut cells), 42))?;
    tried(&rt, Shelf::new(columns::open(3, &mut bytes)))?;
    tried(&rt, shelf_over_quota(pool::open(3, &mut cells), 42))
}
