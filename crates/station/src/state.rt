// What a station keeps.
ghost use Rattle.std.specs.Prelude.{◌≡◌};

use cluster::exchanges::Exchanges;
use cluster::partition::Partition;

// What a station says of an event it reads from its keeper. Of its own it keeps only the policy, the clusters,
// the exchanges between posts, and whether it was opened over a keeper that held a stamp, which no type shows, since
// opening cannot fail. Where it stands is a premise of its calls and no field: over an unsound keeper it stands nowhere.
#[derive(Drop)]
pub struct Station<P, K> {
    pub(crate) policy: P,
    pub(crate) keeper: K,
    pub(crate) partition: Partition,
    pub(crate) exchanges: Exchanges,
    pub(crate) barred: bool,
}

impl<P: Drop, K> Station<P, K> {
    // Ends the station and gives its keeper back.
    pub fn into_keeper(self) -> K
        ensures { result ≡ self.keeper }
    {
        self.keeper
    }
}
