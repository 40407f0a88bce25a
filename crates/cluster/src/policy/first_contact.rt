// Merges whenever the sizes fit.
ghost use Rattle.std.specs.Prelude.{◌≡◌, ℕ};
ghost use Rattle.cluster.specs.Policies.{first_contact};
ghost use Rattle.cluster.specs.Rules.{clamped, fit};

use super::Policy;
use crate::limit::Limit;

#[derive(Clone, Copy, PartialEq, Eq, Debug)]
pub struct FirstContact {
    limit: Limit,
}

impl FirstContact {
    pub fn new(limit: u8) -> FirstContact
        ensures limit { (first_contact result.limit).limit ≡ clamped limit }
        ensures says { (a b e : ℕ) → (first_contact result.limit).says a b e ≡ fit (clamped limit) a b }
    {
        FirstContact {
            limit: Limit::new(limit),
        }
    }
}

impl Policy for FirstContact {
    ghost rule = { λ s. first_contact s.limit };

    fn limit(&self) -> u8 {
        self.limit.value()
    }

    fn ask(&self, own: u8, other: u8, _exchanges: u32) -> bool {
        self.limit.fits(own, other)
    }
}
