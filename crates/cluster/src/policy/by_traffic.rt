// Merges if the sizes fit and there were at least `rate` exchanges for each post of the two clusters.
ghost use Rattle.std.specs.Prelude.{◌≡◌, ℕ, ◌&&◌};
ghost use Rattle.cluster.specs.Policies.{by_traffic};
ghost use Rattle.cluster.specs.Rules.{clamped, fit, busy};

use super::Policy;
use crate::limit::Limit;

#[derive(Clone, Copy, PartialEq, Eq, Debug)]
pub struct ByTraffic {
    limit: Limit,
    rate: u16,
}

impl ByTraffic {
    pub fn new(limit: u8, rate: u16) -> ByTraffic
        ensures limit { (by_traffic result.limit result.rate).limit ≡ clamped limit }
        ensures says { (a b e : ℕ) → (by_traffic result.limit result.rate).says a b e ≡ (fit (clamped limit) a b && busy rate a b e) }
    {
        ByTraffic {
            limit: Limit::new(limit),
            rate,
        }
    }
}

impl Policy for ByTraffic {
    ghost rule = { λ s. by_traffic s.limit s.rate };

    fn limit(&self) -> u8 {
        self.limit.value()
    }

    fn ask(&self, own: u8, other: u8, exchanges: u32) -> bool {
        let posts = u64::from(own) + u64::from(other);
        self.limit.fits(own, other) && u64::from(self.rate) * posts <= u64::from(exchanges)
    }
}
