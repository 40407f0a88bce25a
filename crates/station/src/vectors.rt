// Full vectors, read back from kept stamps.
ghost use Rattle.std.specs.Prelude.{◌≡◌, ℕ, ◌<◌, ◌≤◌, true, ◌∷◌, if◌then◌else◌};
ghost use Rattle.cluster.specs.Clusters.{cover_at, latest_full};
ghost use Rattle.order.specs.History.{count as count_of};
ghost use Rattle.order.specs.Posts.{has};
ghost use Rattle.order.specs.Records.{Bytes, number as number_of, post as post_of};
ghost use Rattle.order.specs.Vectors.{vec};
ghost use Rattle.station.specs.Asks.{knows};
ghost use Rattle.station.specs.Drafts.{at, known_before, Due};
ghost use Rattle.station.specs.Stands.{Wherever};

use super::state::Station;
use cluster::policy::Policy;
use join::vector::Vector;
use join::{Join, Running};
use keeper::Keeper;
use order::event::{Event, Kind};
use order::posts::PostSet;
use order::record::Record;

// What is known before the first event.
fn nothing() -> Vector
    ensures zero { (q : ℕ) → at result q ≡ 0 }
{
    Vector { entries: [0; 64] }
}

impl<P: Policy, K: Keeper> Station<P, K> {
    // The kept entries of a held event for some posts that its cover has, and 0 for the others.
    fn kept_entries(&self, event: Event, posts: PostSet) -> Vector
        ensures kept { Wherever P.Policy K.Keeper self.now (λ R n h. knows n h event ≡ true → ((q : ℕ) → has posts.bits q ≡ true → has (cover_at R n h event.post event.number) q ≡ true) → (q : ℕ) → at result q ≡ (if has posts.bits q then vec h event.post event.number q else 0)) }
    {
        let mut vector = nothing();
        for post in posts.members() {
            vector.set(post, self.keeper.entry(event, post).unwrap_or(0));
        }
        vector
    }

    // The number of a post's latest full event up to an event, or 0 where it has none, as the stamps keep it.
    pub fn latest_full(&self, event: Event) -> u16
        ensures { Wherever P.Policy K.Keeper self.now (λ R n h. event.post < n → event.number ≤ count_of h event.post → result ≡ latest_full R n h event.post event.number) }
    {
        self.keeper.full(event).unwrap_or(0)
    }

    // The vector of a post's latest full event up to an event, all of which is kept.
    fn latest_full_vector(&self, event: Event) -> Vector
        ensures full { Wherever P.Policy K.Keeper self.now (λ R n h. event.post < n → event.number ≤ count_of h event.post → (q : ℕ) → at result q ≡ vec h event.post (latest_full R n h event.post event.number) q) }
    {
        let full = Event {
            post: event.post,
            number: self.latest_full(event),
        };
        if full.number == 0 {
            return nothing();
        }
        let posts = PostSet::first(self.keeper.posts());
        self.kept_entries(full, posts)
    }

    // The full vector of a held event: each entry that its cover lacks is one that a full event of a covered post has.
    fn full_vector(&self, event: Event, cover: PostSet) -> Vector
        ensures full { Wherever P.Policy K.Keeper self.now (λ R n h. knows n h event ≡ true → cover.bits ≡ cover_at R n h event.post event.number → (q : ℕ) → at result q ≡ vec h event.post event.number q) }
    {
        let own = self.kept_entries(event, cover);
        let mut all = Running::new(own);
        for post in cover.members() {
            let number = own.entry(post);
            all.add(self.latest_full_vector(Event { post, number }));
        }
        all.value()
    }

    // The full vector of a held event; zeros for number 0, before a post's first event.
    pub fn vector(&self, event: Event) -> Vector
        ensures full { Wherever P.Policy K.Keeper self.now (λ _ n h. event.post < n → event.number ≤ count_of h event.post → (q : ℕ) → at result q ≡ vec h event.post event.number q) }
    {
        self.keeper
            .cover(event)
            .map_or(nothing(), |cover| self.full_vector(event, cover))
    }

    // All that the event that a record reports next knows, but for itself.
    fn known_before(&self, record: Record) -> Vector
        ensures known { Wherever P.Policy K.Keeper self.now (λ _ n h. (b : Bytes) → Due n h b «record» → (q : ℕ) → at result q ≡ known_before h b q) }
    {
        let previous = self.vector(Event {
            post: record.event.post,
            number: record.event.number.saturating_sub(1),
        });
        match record.kind {
            Kind::Receive => previous.join(self.vector(record.partner)),
            _ => previous,
        }
    }

    // The full vector of the event that a record reports next.
    pub fn next_vector(&self, record: Record) -> Vector
        ensures full { Wherever P.Policy K.Keeper self.now (λ _ n h. (b : Bytes) → Due n h b «record» → (q : ℕ) → at result q ≡ vec (b ∷ h) (post_of b) (number_of b) q) }
    {
        let mut vector = self.known_before(record);
        vector.set(record.event.post, record.event.number);
        vector
    }
}
