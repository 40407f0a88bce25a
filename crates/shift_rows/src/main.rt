// Rows of the seven-event shift that a run shows: what a station of four posts refuses after it, and two openings.
#![tactic(auto)]

use cluster::policy::FirstContact;
use order::record::RECORD_LEN;
use station::faults::FeedFault;
use station::state::Station;

const SHIFT: [u8; 56] = [
    0, 1, 0, 1, 0, 0, 0, 0, 1, 2, 0, 1, 0, 0, 0, 1, 1, 1, 0, 2, 0, 0, 0, 0, 2, 2, 0, 1, 1, 0, 0, 2,
    2, 1, 0, 2, 0, 0, 0, 0, 3, 2, 0, 1, 2, 0, 0, 2, 0, 0, 0, 2, 0, 0, 0, 0,
];

// Feeds a new station for so many posts.
fn fed(posts: u8, feed: &[u8]) -> Result<usize, FeedFault> {
    let mut cells = [0; 128];
    Station::open(FirstContact::new(2), pool::open(posts, &mut cells)).feed(feed)
}

fn main(rt: HostRuntime) -> anyhow::Result<()> {
    let mut cells = [0; 128];
    let mut station = Station::open(FirstContact::new(2), pool::open(4, &mut cells));
    let taken = station.feed(&SHIFT).unwrap_or(0);
    println!(rt; "the shift: {taken} taken")?;
    if let Err(fault) = station.take(&[1, 0, 0, 4, 0, 0, 0, 0]) {
        println!(rt; "post 1, number 4: refused {}", fault.ground())?;
    }
    let mut ragged = [0; 57];
    ragged[..56].copy_from_slice(&SHIFT);
    let openings = [
        ("65 posts, first record", fed(65, &SHIFT[..8])),
        ("a feed of 57 bytes", fed(4, &ragged)),
    ];
    for (name, answer) in openings {
        if let Err(fault) = answer {
            println!(rt;
                "{name}: refused {}, {} taken",
                fault.ground(),
                fault.place() / RECORD_LEN
            )?;
        }
    }
    Ok(())
}
