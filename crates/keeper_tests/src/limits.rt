// The ends of the ranges: numbers of posts, memory, the last number of a post, the widest covers.
use keeper::Keeper;
use keeper::admit::Header;
use keeper::fault::KeeperFault;
use order::event::{Event, Kind};
use order::posts::PostSet;
use std::array::from_fn;
use std::process::Abort;
use std::test::Fail;

// The number of posts, and the space of the first, the last and none.
fn opened<K: Keeper + Drop>(pile: K) -> (u8, [Option<usize>; 3]) {
    let spaces = [pile.space(0).ok(), pile.space(63).ok(), pile.space(64).ok()];
    (pile.posts(), spaces)
}

// One for each keeper, since they lie over memory of different kinds.
fn of_pool(posts: u8, cells: usize) -> (u8, [Option<usize>; 3]) {
    let mut memory = [0; 9];
    opened(pool::open(posts, &mut memory[0..cells.min(9)]))
}

fn of_columns(posts: u8, bytes: usize) -> (u8, [Option<usize>; 3]) {
    let mut memory = [0; 130];
    opened(columns::open(posts, &mut memory[0..bytes.min(130)]))
}

#[test]
fn openings(rt: HostRuntime) {
    // posts, cells, and what the pool tells; bytes, and what the columns tell
    let table: [(u8, usize, [Option<usize>; 2], usize, [Option<usize>; 2]); 10] = [
        (0, 9, [None, None], 130, [None, None]),
        (1, 0, [Some(0), None], 0, [Some(0), None]),
        (1, 9, [Some(9), None], 1, [Some(0), None]),
        (1, 9, [Some(9), None], 11, [Some(5), None]),
        (2, 9, [Some(9), None], 11, [Some(2), None]),
        (64, 0, [Some(0), Some(0)], 0, [Some(0), Some(0)]),
        (64, 1, [Some(1), Some(1)], 127, [Some(0), Some(0)]),
        (64, 9, [Some(9), Some(9)], 129, [Some(1), Some(1)]),
        (65, 9, [None, None], 130, [None, None]),
        (255, 9, [None, None], 130, [None, None]),
    ];
    for (posts, cells, in_pool, bytes, in_columns) in table {
        let known = if posts > 64 { 0 } else { posts };
        assert_eq!(rt;
            of_pool(posts, cells),
            (known, [in_pool[0], in_pool[1], None])
        );
        assert_eq!(rt;
            of_columns(posts, bytes),
            (known, [in_columns[0], in_columns[1], None])
        );
    }
}

// Fills one post up to its last number, with stamps of nine cells.
fn many<K: Keeper + Drop>(rt: &impl Abort, mut pile: K, left: usize) -> Result<(), Fail> {
    let header = Header {
        kind: Kind::Send,
        cover: PostSet::first(1),
        full: 1,
    };
    // Over the numbers, and below over the posts themselves: nothing is indexed.
    for number in 1..=65_535 {
        pile.append(0, header, &[number])?;
    }
    assert_eq!(rt; pile.count(0), Ok(65_535));
    assert_eq!(rt; pile.space(0), Ok(left));
    // full, whether there is space or not; a bad cover comes first
    assert_eq!(rt; pile.append(0, header, &[1]), Err(KeeperFault::Full));
    assert_eq!(rt; pile.append(0, header, &[]), Err(KeeperFault::BadCover));
    assert_eq!(rt; pile.append(1, header, &[]), Err(KeeperFault::UnknownPost));
    for number in [1, 2, 65_534, 65_535] {
        assert_eq!(rt; pile.entry(Event { post: 0, number }, 0), Ok(number));
    }
    Ok(())
}

#[test]
fn numbers(rt: HostRuntime) -> Result<(), Fail> {
    let mut cells = vec![in rt.alloc(); 0u16; 65_535 * 9 + 20]?;
    many(&rt, pool::open(1, &mut cells), 20)?;
    let mut bytes = vec![in rt.alloc(); 0u8; 65_535 * 18]?;
    many(&rt, columns::open(1, &mut bytes), 0)
}

fn counted() -> [u16; 64] {
    from_fn(|i| 1_000 + i as u16)
}

// Keeps a stamp for all posts from one on, as bits, and reads every entry of it.
fn kept<K: Keeper>(
    rt: &impl Abort,
    pile: &mut K,
    post: u8,
    from: u8,
    bits: u64,
) -> Result<(), Fail> {
    let values = counted();
    let header = Header {
        kind: Kind::Receive,
        cover: PostSet::from_bits(bits),
        full: 0,
    };
    let size = 64usize.saturating_sub(from as usize);
    pile.append(post, header, &values[0..size])?;
    let number = pile.count(post)?;
    for other in 0..64 {
        let expected = if other < from {
            Err(KeeperFault::NotCovered)
        } else {
            Ok(1_000 + (other - from) as u16)
        };
        assert_eq!(rt; pile.entry(Event { post, number }, other), expected);
    }
    Ok(())
}

fn wide<K: Keeper + Drop>(rt: &impl Abort, mut pile: K) -> Result<(), Fail> {
    let table = [
        (0, 63, 0x8000_0000_0000_0000),
        (63, 1, 0xffff_ffff_ffff_fffe),
        (63, 0, 0xffff_ffff_ffff_ffff),
        (31, 0, 0xffff_ffff_ffff_ffff),
    ];
    for (post, from, bits) in table {
        kept(rt, &mut pile, post, from, bits)?;
    }
    Ok(())
}

#[test]
fn covers(rt: HostRuntime) -> Result<(), Fail> {
    let mut cells = vec![in rt.alloc(); 0u16; 224]?;
    wide(&rt, pool::open(64, &mut cells))?;
    let mut bytes = vec![in rt.alloc(); 0u8; 64 * 143 * 2]?;
    wide(&rt, columns::open(64, &mut bytes))
}
