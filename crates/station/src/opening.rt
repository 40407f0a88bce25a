// Opening a station.
ghost use Rattle.std.specs.Prelude.{◌≡◌, ℕ, ◌<◌, true, false, []};
ghost use Rattle.keeper.specs.Piles.{held_count};
ghost use Rattle.station.specs.Stands.{Stands, Unused};

use super::state::Station;
use cluster::exchanges::Exchanges;
use cluster::partition::Partition;
use cluster::policy::Policy;
use keeper::Keeper;

// Whether a keeper holds a stamp.
fn is_used<K: Keeper>(keeper: &K) -> bool
    ensures free { K.sound keeper.now → result ≡ false → Unused (K.meaning keeper.now) }
    ensures used { K.sound keeper.now → result ≡ true → ((p : ℕ) × (p < (K.meaning keeper.now).posts) × (0 < held_count (K.meaning keeper.now) p)) }
{
    (0..keeper.posts()).any(|post| keeper.count(post).unwrap_or(0) > 0)
}

impl<P: Policy, K: Keeper> Station<P, K> {
    // A station over an empty keeper. Over one that holds a stamp it refuses every call.
    #[tactic(auto, using(crate::proofs::Opened::found_some))]
    pub fn open(policy: P, keeper: K) -> Station<P, K>
        ensures parts { (result.policy ≡ policy) × (result.keeper ≡ keeper) }
        ensures stands { K.sound keeper → Unused (K.meaning keeper) → Stands P.Policy K.Keeper result [] }
        ensures barred { K.sound keeper → (p : ℕ) → p < (K.meaning keeper).posts → 0 < held_count (K.meaning keeper) p → result.barred ≡ true }
    {
        let barred = is_used(&keeper);
        let partition = Partition::open(keeper.posts());
        Station {
            policy,
            keeper,
            partition,
            exchanges: Exchanges::new(),
            barred,
        }
    }
}
