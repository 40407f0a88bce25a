// Space, down to the last cell.
use keeper::Keeper;
use keeper::admit::Header;
use keeper::fault::KeeperFault;
use layers::quota::Quota;
use order::event::Kind;
use order::posts::PostSet;
use std::process::Abort;
use std::test::Fail;

// An append of a stamp with so many entries to a post, its fault, and the space of three posts after it.
type Row = (u8, u8, Option<KeeperFault>, [usize; 3]);

fn put<K: Keeper>(pile: &mut K, post: u8, entries: u8) -> Option<KeeperFault> {
    let header = Header {
        kind: Kind::Local,
        cover: PostSet::first(entries),
        full: 0,
    };
    let values = [1; 3];
    pile.append(post, header, &values[0..(entries as usize).min(3)])
        .err()
}

fn filled<K: Keeper + Drop>(rt: &impl Abort, mut pile: K, table: &[Row]) -> Result<(), Fail> {
    for (post, entries, fault, spaces) in table {
        assert_eq!(rt; put(&mut pile, *post, *entries), *fault);
        let after = [pile.space(0)?, pile.space(1)?, pile.space(2)?];
        assert_eq!(rt; after, *spaces);
    }
    Ok(())
}

fn short(wanted: usize, left: usize) -> Option<KeeperFault> {
    Some(KeeperFault::NoSpace { wanted, left })
}

#[test]
fn fills(rt: HostRuntime) -> Result<(), Fail> {
    let mut cells = [0; 29];
    filled(
        &rt,
        pool::open(3, &mut cells),
        &[
            (0, 3, None, [18, 18, 18]),
            (1, 2, None, [8, 8, 8]),
            (2, 1, short(9, 8), [8, 8, 8]),
            (2, 0, None, [0, 0, 0]),
            (0, 0, short(8, 0), [0, 0, 0]),
        ],
    )?;
    // two cells and a byte are left over
    let mut bytes = [0; 119];
    filled(
        &rt,
        columns::open(3, &mut bytes),
        &[
            (0, 3, None, [8, 19, 19]),
            (0, 1, short(9, 8), [8, 19, 19]),
            (0, 0, None, [0, 19, 19]),
            (0, 0, short(8, 0), [0, 19, 19]),
            (1, 2, None, [0, 9, 19]),
            (1, 1, None, [0, 0, 19]),
            (2, 3, None, [0, 0, 8]),
        ],
    )
}

#[test]
fn quotas(rt: HostRuntime) -> Result<(), Fail> {
    let mut cells = [0; 29];
    // less than there is below, and more
    filled(
        &rt,
        Quota::new(pool::open(3, &mut cells), 20),
        &[
            (0, 3, None, [9, 9, 9]),
            (1, 2, short(10, 9), [9, 9, 9]),
            (1, 1, None, [0, 0, 0]),
            (2, 0, short(8, 0), [0, 0, 0]),
        ],
    )?;
    filled(
        &rt,
        Quota::new(pool::open(3, &mut cells), 30),
        &[
            (0, 3, None, [18, 18, 18]),
            (1, 2, None, [8, 8, 8]),
            (2, 1, short(9, 8), [8, 8, 8]),
        ],
    )?;
    // the own column is the smaller, then the allowance
    let mut bytes = [0; 72];
    filled(
        &rt,
        Quota::new(columns::open(3, &mut bytes), 20),
        &[
            (0, 3, None, [1, 9, 9]),
            (0, 0, short(8, 1), [1, 9, 9]),
            (1, 2, short(10, 9), [1, 9, 9]),
            (1, 1, None, [0, 0, 0]),
            (2, 0, short(8, 0), [0, 0, 0]),
        ],
    )
}
