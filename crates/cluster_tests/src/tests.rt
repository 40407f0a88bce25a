use super::elder::Elder;
use cluster::exchanges::Exchanges;
use cluster::partition::Partition;
use cluster::policy::{ByTraffic, FirstContact, Policy};
use order::posts::PostSet;

// The limit that counts, and the answer for two sizes and a number of exchanges.
fn asked<P: Policy>(policy: &P, (own, other, exchanges): (u8, u8, u32)) -> (u8, bool) {
    (policy.limit(), policy.ask(own, other, exchanges))
}

// A table for each policy, since one function for all would have to be able to stop a test.

// Limits out of range; sizes that reach the limit, and pass it by one.
#[test]
fn first_contact(rt: HostRuntime) {
    let table: [(u8, (u8, u8, u32), (u8, bool)); 12] = [
        (0, (1, 1, 0), (1, false)),
        (0, (1, 0, 0), (1, true)),
        (1, (1, 1, 9), (1, false)),
        (2, (1, 1, 0), (2, true)),
        (2, (1, 2, 0), (2, false)),
        (64, (32, 32, 0), (64, true)),
        (64, (33, 32, 0), (64, false)),
        (65, (32, 32, 0), (64, true)),
        (65, (32, 33, 0), (64, false)),
        (255, (1, 63, 0), (64, true)),
        (255, (64, 1, 0), (64, false)),
        (255, (255, 255, 4_294_967_295), (64, false)),
    ];
    for (limit, question, expected) in table {
        assert_eq!(rt; asked(&FirstContact::new(limit), question), expected);
    }
}

// Exchanges that reach the rate, and miss it by one.
#[test]
fn by_traffic(rt: HostRuntime) {
    let table: [(u16, u8, (u8, u8, u32), (u8, bool)); 10] = [
        (0, 0, (1, 0, 0), (1, true)),
        (0, 2, (1, 1, 0), (2, true)),
        (1, 2, (1, 1, 1), (2, false)),
        (1, 2, (1, 1, 2), (2, true)),
        (1, 2, (2, 1, 9), (2, false)),
        (3, 65, (30, 34, 191), (64, false)),
        (3, 65, (30, 34, 192), (64, true)),
        (65_535, 64, (32, 32, 4_194_239), (64, false)),
        (65_535, 64, (32, 32, 4_194_240), (64, true)),
        (65_535, 255, (255, 255, 4_294_967_295), (64, false)),
    ];
    for (rate, limit, question, expected) in table {
        assert_eq!(rt; asked(&ByTraffic::new(limit, rate), question), expected);
    }
}

// A policy that is not symmetric.
#[test]
fn elder(rt: HostRuntime) {
    let table: [(u8, (u8, u8, u32), (u8, bool)); 5] = [
        (4, (2, 1, 0), (4, true)),
        (4, (1, 2, 0), (4, false)),
        (4, (2, 2, 0), (4, true)),
        (4, (3, 2, 0), (4, false)),
        (0, (1, 1, 0), (1, false)),
    ];
    for (limit, question, expected) in table {
        assert_eq!(rt; asked(&Elder::new(limit), question), expected);
    }
}

// The set of two posts.
fn pair((a, b): (u8, u8)) -> PostSet {
    let mut set = PostSet::empty();
    set.insert(a);
    set.insert(b);
    set
}

// Of 64 posts, after some merges: whether two share a cluster, and how many are in the first one's.
fn shared(merges: [(u8, u8); 3], a: u8, b: u8) -> (bool, u32) {
    let mut partition = Partition::open(64);
    for (x, y) in merges {
        partition = partition.merge(x, y);
    }
    (partition.same(a, b), partition.cluster(a).size())
}

fn all_merged() -> PostSet {
    let merged = (0..63).fold(
        Partition::open(64),
        |partition, post| partition.merge(post, post + 1),
    );
    merged.cluster(31)
}

#[test]
fn partitions(rt: HostRuntime) {
    let table: [([(u8, u8); 3], u8, u8, (bool, u32)); 8] = [
        ([(0, 0), (0, 0), (0, 0)], 0, 1, (false, 1)),
        ([(0, 63), (0, 0), (0, 0)], 63, 0, (true, 2)),
        ([(0, 63), (0, 0), (0, 0)], 1, 63, (false, 1)),
        ([(0, 1), (2, 3), (1, 2)], 3, 0, (true, 4)),
        ([(0, 1), (2, 3), (1, 2)], 4, 0, (false, 1)),
        // unknown posts
        ([(0, 1), (0, 64), (255, 0)], 0, 1, (true, 2)),
        ([(64, 64), (64, 65), (0, 1)], 64, 64, (false, 0)),
        ([(0, 1), (1, 0), (0, 1)], 0, 64, (false, 2)),
    ];
    for (merges, a, b, expected) in table {
        assert_eq!(rt; shared(merges, a, b), expected);
    }
    assert_eq!(rt; Partition::open(65).posts(), 0);
    assert_eq!(rt; all_merged(), PostSet::first(64));
}

// The exchanges between two sets after some receives.
fn counted(receives: [(u8, u8); 4], a: (u8, u8), b: (u8, u8)) -> u32 {
    let mut table = Exchanges::new();
    for (receiver, sender) in receives {
        table.note(receiver, sender);
    }
    table.between(pair(a), pair(b))
}

#[test]
fn exchanges(rt: HostRuntime) {
    let table: [([(u8, u8); 4], (u8, u8), (u8, u8), u32); 6] = [
        ([(0, 1), (1, 0), (0, 1), (2, 0)], (0, 0), (1, 1), 3),
        ([(0, 1), (1, 0), (0, 1), (2, 0)], (1, 1), (0, 0), 3),
        ([(0, 1), (1, 0), (0, 1), (2, 0)], (0, 63), (1, 2), 4),
        ([(0, 1), (1, 0), (0, 1), (2, 0)], (1, 1), (2, 2), 0),
        // a receive within both sets counts once
        ([(0, 1), (1, 0), (0, 1), (2, 0)], (0, 1), (0, 1), 3),
        // unknown posts are not counted
        ([(64, 0), (0, 64), (63, 0), (255, 63)], (0, 0), (63, 63), 1),
    ];
    for (receives, a, b, expected) in table {
        assert_eq!(rt; counted(receives, a, b), expected);
    }
}
