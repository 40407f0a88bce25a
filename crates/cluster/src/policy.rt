// Policies: whether a receive from another cluster merges the two.
ghost use Rattle.std.specs.Prelude.{◌≡◌};
ghost use Rattle.cluster.specs.Rules.{Rule};

mod by_traffic;
mod first_contact;

pub use by_traffic::ByTraffic;
pub use first_contact::FirstContact;

// A policy means a rule, and answers as its rule says. That a yes keeps the limit is part of every rule.
pub trait Policy {
    ghost rule: { Self → Rule };

    // The largest size of a cluster.
    fn limit(&self) -> u8
        ensures { result ≡ (rule self.now).limit };

    // Whether the receiver's cluster of size `own` and the sender's of size `other` are to be merged, with so many
    // exchanges between them before.
    fn ask(&self, own: u8, other: u8, exchanges: u32) -> bool
        ensures { result ≡ (rule self.now).says own other exchanges };
}
