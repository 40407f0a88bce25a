// A policy that is not symmetric: it merges only if the receiver's cluster is not the smaller.
ghost use Rattle.std.specs.Prelude.{◌≡◌, ℕ, ◌&&◌, nat_le};
ghost use Rattle.cluster.specs.Rules.{clamped, fit};
ghost use Rattle.cluster_tests.specs.Elders.{elder};

use cluster::limit::Limit;
use cluster::policy::Policy;

#[derive(Clone, Copy, PartialEq, Eq, Debug)]
pub struct Elder {
    limit: Limit,
}

impl Elder {
    pub fn new(limit: u8) -> Elder
        ensures limit { (elder result.limit).limit ≡ clamped limit }
        ensures says { (a b e : ℕ) → (elder result.limit).says a b e ≡ (nat_le b a && fit (clamped limit) a b) }
    {
        Elder {
            limit: Limit::new(limit),
        }
    }
}

impl Policy for Elder {
    ghost rule = { λ s. elder s.limit };

    fn limit(&self) -> u8 {
        self.limit.value()
    }

    fn ask(&self, own: u8, other: u8, _exchanges: u32) -> bool {
        other <= own && self.limit.fits(own, other)
    }
}
