// The shift program: four posts, first contact with limit 2, a pool of 4,096 cells.
use super::input::read_reserved;
use super::work;
use cluster::policy::FirstContact;
use station::state::Station;

// How much of the input is taken, and what the station has.
const MOST: usize = 65_536;

const POSTS: u8 = 4;

const LIMIT: u8 = 2;

const CELLS: usize = 4_096;

// Feeds standard input to a station and prints what became of each record.
pub fn run(rt: &HostRuntime) -> anyhow::Result<()> {
    let feed = read_reserved(rt.alloc(), &mut rt.stdin(), MOST)?;
    let mut cells = vec![in rt.alloc(); 0u16; CELLS]?;
    let mut station = Station::open(FirstContact::new(LIMIT), pool::open(POSTS, &mut cells));
    let report = work(rt.alloc(), &mut station, &feed)?;
    for line in &report.lines {
        println!(rt; "{line}")?;
    }
    if let Some(fault) = report.refusal {
        // A Display of a fault would print these two numbers for this line alone.
        println!(rt; "refused {} {}", fault.ground(), fault.place())?;
    }
    println!(rt; "end {} {}", report.lines.len(), report.prices)?;
    Ok(())
}
