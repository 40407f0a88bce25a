// What a station reads from its keeper, by the history at which it stands.
ghost use Rattle.std.specs.Prelude.{◌≡◌, ◌<◌, true, ◌==◌};
ghost use Rattle.order.specs.History.{count as count_of, kind_at, received};
ghost use Rattle.station.specs.Asks.{knows};
ghost use Rattle.station.specs.Stands.{Wherever};

use super::state::Station;
use cluster::policy::Policy;
use keeper::Keeper;
use order::event::{Event, Kind};

impl<P: Policy, K: Keeper> Station<P, K> {
    // How many events of a post are held.
    pub fn count(&self, post: u8) -> u16
        ensures { Wherever P.Policy K.Keeper self.now (λ _ n h. post < n → result ≡ count_of h post) }
    {
        self.keeper.count(post).unwrap_or(0)
    }

    pub fn holds(&self, event: Event) -> bool
        ensures { Wherever P.Policy K.Keeper self.now (λ _ n h. result ≡ knows n h event) }
    {
        self.keeper.kind(event).is_ok()
    }

    // Whether a held event is a send.
    pub fn is_send(&self, event: Event) -> bool
        ensures { Wherever P.Policy K.Keeper self.now (λ _ n h. knows n h event ≡ true → result ≡ (kind_at h event.post event.number == 1)) }
    {
        self.keeper.kind(event) == Ok(Kind::Send)
    }

    // Whether a held send has been received.
    pub fn is_received(&self, event: Event) -> bool
        ensures { Wherever P.Policy K.Keeper self.now (λ _ n h. knows n h event ≡ true → result ≡ received h event.post event.number) }
    {
        self.keeper.marked(event).unwrap_or(false)
    }
}
