// The largest size of a cluster, at least 1 and at most 64.
ghost use Rattle.std.specs.Prelude.{◌≡◌, ◌≤◌};
ghost use Rattle.cluster.specs.Rules.{clamped, fit};

use order::posts::MAX_POSTS;

#[derive(Clone, Copy, PartialEq, Eq, Debug)]
pub struct Limit {
    value: u8,
    ghost least: { 1 ≤ value },
    ghost most: { value ≤ 64 },
}

impl Limit {
    // A limit of 0 counts as 1, and one above 64 as 64. So this is no `From`, which would not show that it clamps.
    pub fn new(limit: u8) -> Limit
        ensures { result.value ≡ clamped limit }
    {
        Limit {
            value: limit.clamp(1, MAX_POSTS),
        }
    }

    pub fn value(self) -> u8
        ensures { result ≡ self.value }
    {
        self.value
    }

    // Whether clusters of these sizes make one within the limit.
    pub fn fits(self, own: u8, other: u8) -> bool
        ensures { result ≡ fit self.value own other }
    {
        u16::from(own) + u16::from(other) <= u16::from(self.value)
    }
}
