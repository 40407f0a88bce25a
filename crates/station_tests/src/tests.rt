use cluster::outcome::Outcome;
use cluster::policy::{ByTraffic, FirstContact, Policy};
use keeper::Keeper;
use layers::quota::Quota;
use layers::shelf::Shelf;
use order::event::Event;
use station::asks::Relation;
use station::faults::Taken;
use station::state::Station;
use std::process::Abort;
use std::test::Fail;

const SHIFT: [[u8; 8]; 7] = [
    [0, 1, 0, 1, 0, 0, 0, 0],
    [1, 2, 0, 1, 0, 0, 0, 1],
    [1, 1, 0, 2, 0, 0, 0, 0],
    [2, 2, 0, 1, 1, 0, 0, 2],
    [2, 1, 0, 2, 0, 0, 0, 0],
    [3, 2, 0, 1, 2, 0, 0, 2],
    [0, 0, 0, 2, 0, 0, 0, 0],
];

// Outcome and entries of each record with clusters of two posts, by the table of the shift. They stand apart from the
// records, which other tests take alone.
const TAKEN: [(Outcome, u8); 7] = [
    (Outcome::Plain, 1),
    (Outcome::Merged, 2),
    (Outcome::Plain, 2),
    (Outcome::Across, 4),
    (Outcome::Plain, 1),
    (Outcome::Merged, 2),
    (Outcome::Plain, 2),
];

// Takes the shift, and compares each answer and what follows with the table.
fn shift_over<P: Policy + Drop, K: Keeper + Drop>(
    rt: &impl Abort,
    policy: P,
    keeper: K,
) -> Result<(), Fail> {
    let mut station = Station::open(policy, keeper);
    for (record, (outcome, entries)) in SHIFT.iter().zip(TAKEN) {
        assert_eq!(rt; station.take(record), Ok(Taken { outcome, entries }));
    }
    let (first, sample) = (Event { post: 0, number: 1 }, Event { post: 3, number: 1 });
    assert!(rt; station.relate(first, sample) == Ok(Relation::Before));
    assert!(rt; station.reach(sample, 1) == Ok(2));
    assert_eq!(rt;
        ground_of(&mut station, &[2, 2, 0, 3, 0, 0, 0, 1]),
        Some(11)
    );
    Ok(())
}

#[test]
fn every_pile_and_policy(rt: HostRuntime) -> Result<(), Fail> {
    let (mut a, mut b, mut c) = ([0; 70], [0; 70], [0; 70]);
    let (mut d, mut e) = ([0; 240], [0; 240]);
    shift_over(&rt, FirstContact::new(2), pool::open(4, &mut a))?;
    shift_over(&rt, FirstContact::new(2), columns::open(4, &mut d))?;
    shift_over(
        &rt,
        ByTraffic::new(2, 0),
        Shelf::new(Quota::new(pool::open(4, &mut b), 70)),
    )?;
    shift_over(
        &rt,
        ByTraffic::new(2, 0),
        Quota::new(Shelf::new(columns::open(4, &mut e)), 1_000),
    )?;
    let mut station = Station::open(ByTraffic::new(2, 1), pool::open(4, &mut c));
    let _ = station.take(&SHIFT[0]);
    let across = Taken {
        outcome: Outcome::Across,
        entries: 4,
    };
    assert_eq!(rt; station.take(&SHIFT[1]), Ok(across));
    Ok(())
}

// The ground on which a record is refused, if it is.
fn ground_of<P: Policy + Drop, K: Keeper + Drop>(
    station: &mut Station<P, K>,
    record: &[u8],
) -> Option<u8> {
    station.take(record).err().map(|fault| fault.ground())
}

#[test]
fn refusals(rt: HostRuntime) -> Result<(), Fail> {
    let mut cells = [0; 69];
    let mut station = Station::open(FirstContact::new(2), pool::open(4, &mut cells));
    for record in &SHIFT[..6] {
        assert!(rt; station.take(record).is_ok());
    }
    let table: [([u8; 8], u8); 6] = [
        (SHIFT[6], 12),
        ([0, 0, 0, 3, 0, 0, 0, 0], 8),
        ([1, 2, 0, 3, 3, 0, 0, 9], 9),
        ([1, 2, 0, 3, 3, 0, 0, 1], 10),
        ([2, 2, 0, 3, 0, 0, 0, 1], 11),
        ([4, 0, 0, 1, 0, 0, 0, 0], 5),
    ];
    for (record, ground) in table {
        assert_eq!(rt; ground_of(&mut station, &record), Some(ground));
    }
    let ragged = station.feed(&[0; 57]);
    assert_eq!(rt;
        ragged.map_err(|fault| (fault.ground(), fault.place())),
        Err((2, 0))
    );
    let mut barred = Station::open(FirstContact::new(2), station.into_keeper());
    assert_eq!(rt; ground_of(&mut barred, &SHIFT[0]), Some(1));
    assert_eq!(rt; barred.feed(&[]).map_err(|fault| fault.ground()), Err(1));
    Ok(())
}
