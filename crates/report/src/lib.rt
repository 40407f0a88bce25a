// What a shift's feed comes to: the events taken, where it stops, and what the stamps cost.
#![tactic(auto)]

ghost use Rattle.std.specs.Prelude.{◌≡◌, ◌≤◌, length, IfOk, Some, string_bytes};
ghost use Rattle.order.specs.Records.{number as number_of, post as post_of};
ghost use Rattle.report.specs.Lines.{printed};
ghost use Rattle.report.specs.Reports.{Reported};

use cluster::policy::Policy;
use keeper::Keeper;
use keeper::admit::price;
use order::event::Event;
use order::record::RECORD_LEN;
use station::faults::{FeedFault, Taken};
use station::state::Station;
use std::alloc::{AllocError, Global};
use std::fmt;

pub mod input;
pub mod program;
#[cfg(test)]
mod tests;

// An event that was taken, and what the station answered.
#[derive(Clone, Copy, PartialEq, Eq, Debug)]
pub struct Line {
    pub event: Event,
    pub taken: Taken,
}

impl fmt::Display for Line {
    ghost output = { λ line. Some (printed line) };

    fn fmt<W: fmt::Write>(&self, f: &mut fmt::Formatter<W>) -> fmt::Result {
        let Event { post, number } = self.event;
        let Taken { outcome, entries } = self.taken;
        write!(f, "{post} {number} {outcome} {entries}")
    }
}

// What is printed of an event.
pub fn text(alloc: Global, line: Line) -> Result<String, AllocError>
    ensures { IfOk result (λ t. string_bytes t ≡ printed line) }
{
    line.to_string(alloc)
}

// The line of a record of eight bytes that was taken.
#[tactic(auto, unfolding(order::specs::Records::number, order::specs::Records::post))]
pub fn line_of(bytes: &[u8], taken: Taken) -> Line
    ensures answer { result.taken ≡ taken }
    ensures event { length bytes.now ≡ 8 → (result.event.post ≡ post_of bytes.now) × (result.event.number ≡ number_of bytes.now) }
{
    let event = match bytes {
        [post, _, high, low, _, _, _, _] => Event {
            post: *post,
            number: u16::from_be_bytes([*high, *low]),
        },
        // It answers for any bytes, and no event is numbered 0.
        _ => Event { post: 0, number: 0 },
    };
    Line { event, taken }
}

// The events taken, why no more were, and the sum of the prices of their stamps.
#[derive(Drop)]
pub struct Report {
    pub lines: Vec<Line>,
    pub refusal: Option<FeedFault>,
    pub prices: usize,
}

// Takes each record of a feed in order, up to the first that is refused.
pub fn work<P: Policy + Drop, K: Keeper + Drop>(
    alloc: Global,
    station: &mut Station<P, K>,
    feed: &[u8],
) -> Result<Report, AllocError>
    ensures { IfOk result (λ x. Reported feed.now x) }
{
    let mut report = Report {
        lines: Vec::new(alloc),
        refusal: None,
        prices: 0,
    };
    let (records, rest) = feed.as_chunks::<RECORD_LEN>();
    if !rest.is_empty() {
        report.refusal = Some(FeedFault::Ragged);
        return Ok(report);
    }
    for (taken, record) in records.iter().enumerate() {
        match station.take(record) {
            Ok(answer) => {
                report.lines.push(line_of(record, answer))?;
                report.prices = report.prices.saturating_add(price(answer.entries));
            }
            Err(fault) => {
                let place = taken * RECORD_LEN;
                report.refusal = Some(FeedFault::Take { place, fault });
                return Ok(report);
            }
        }
    }
    Ok(report)
}
