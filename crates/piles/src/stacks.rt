// Layers over layers.
ghost use Rattle.std.specs.Prelude.{◌≡◌};
ghost use Rattle.layers.specs.Limits.{limited, quota_meaning, QuotaSound};
ghost use Rattle.layers.specs.Shelves.{shelf_meaning, ShelfSound};
ghost use Rattle.piles.specs.Visits.{plan, Reports};

use super::{Draft, Report, visit};
use keeper::Keeper;
use keeper::fault::KeeperFault;
use layers::quota::Quota;
use layers::shelf::Shelf;

pub fn shelf_over_quota<K: Keeper>(below: K, allowance: u32) -> Shelf<Quota<K>>
    ensures meaning { shelf_meaning (quota_meaning K.Keeper.meaning) result ≡ limited (K.Keeper.meaning below) allowance }
    ensures sound { K.Keeper.sound below → ShelfSound (QuotaSound K.Keeper.sound) (quota_meaning K.Keeper.meaning) result }
{
    Shelf::new(Quota::new(below, allowance))
}

// A visit to a shelf over a quota over a shelf over any keeper.
pub fn visit_stack<K: Keeper + Drop>(
    below: K,
    allowance: u32,
    first: Draft,
    second: Draft,
    asked: u8,
) -> Result<Report, KeeperFault>
    ensures { K.Keeper.sound below → Reports (limited (K.Keeper.meaning below) allowance) (plan first.entry) (plan second.entry) asked result }
{
    let mut pile = shelf_over_quota(Shelf::new(below), allowance);
    visit(&mut pile, first, second, asked)
}
