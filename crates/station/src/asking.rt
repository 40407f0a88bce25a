// Questions about single events and posts.
ghost use Rattle.std.specs.Prelude.{◌≡◌, ◌<◌, true, if◌then◌else◌, nat_lt, Ok, Err};
ghost use Rattle.order.specs.Vectors.{vec};
ghost use Rattle.station.specs.Asks.{clusters_at, knows, precedes, reaches, relates};
ghost use Rattle.station.specs.Stands.{Wherever};
ghost use Rattle.station.specs.declared.asks.AskFault.TheVariants.{Barred, NotHeld, UnknownPost};

use super::asks::{AskFault, Relation};
use super::state::Station;
use cluster::policy::Policy;
use keeper::Keeper;
use order::event::Event;
use order::posts::PostSet;

impl<P: Policy, K: Keeper> Station<P, K> {
    // A barred station refuses every question.
    pub(crate) fn check_open(&self) -> Result<(), AskFault>
        ensures { result ≡ (if self.now.barred then Err Barred else Ok tt) }
    {
        if self.barred {
            return Err(AskFault::Barred);
        }
        Ok(())
    }

    // A question that names an event that is not held is refused, by the place of that event.
    pub(crate) fn check_held(&self, event: Event, place: usize) -> Result<(), AskFault>
        ensures { Wherever P.Policy K.Keeper self.now (λ _ n h. result ≡ (if knows n h event then Ok tt else Err (NotHeld place))) }
    {
        if !self.holds(event) {
            return Err(AskFault::NotHeld { place });
        }
        Ok(())
    }

    // A question about a post that is not one of the station's is refused.
    fn check_post(&self, post: u8) -> Result<(), AskFault>
        ensures { Wherever P.Policy K.Keeper self.now (λ _ n _. result ≡ (if nat_lt post n then Ok tt else Err UnknownPost)) }
    {
        if post >= self.keeper.posts() {
            return Err(AskFault::UnknownPost);
        }
        Ok(())
    }

    // A held event's full entry for a post: the kept one, else one that comes back with the whole vector.
    pub fn full_entry(&self, event: Event, post: u8) -> u16
        ensures { Wherever P.Policy K.Keeper self.now (λ _ n h. knows n h event ≡ true → post < n → result ≡ vec h event.post event.number post) }
    {
        self.keeper
            .entry(event, post)
            .unwrap_or_else(|_| self.vector(event).entry(post))
    }

    // Whether a held event precedes another.
    fn precedes(&self, event: Event, other: Event) -> bool
        ensures { Wherever P.Policy K.Keeper self.now (λ _ n h. knows n h event ≡ true → knows n h other ≡ true → result ≡ precedes h event other) }
    {
        event != other && event.number <= self.full_entry(other, event.post)
    }

    // How the first of two events stands to the second.
    pub fn relate(&self, first: Event, second: Event) -> Result<Relation, AskFault>
        ensures barred { self.now.barred ≡ true → result ≡ Err Barred }
        ensures answer { Wherever P.Policy K.Keeper self.now (λ _ n h. result ≡ relates n h first second) }
    {
        self.check_open()?;
        self.check_held(first, 0)?;
        self.check_held(second, 1)?;
        if self.precedes(first, second) {
            return Ok(Relation::Before);
        }
        if self.precedes(second, first) {
            return Ok(Relation::After);
        }
        Ok(Relation::Concurrent)
    }

    // How many events of a post are the named event or happened before it.
    pub fn reach(&self, event: Event, post: u8) -> Result<u16, AskFault>
        ensures barred { self.now.barred ≡ true → result ≡ Err Barred }
        ensures answer { Wherever P.Policy K.Keeper self.now (λ _ n h. result ≡ reaches n h event post) }
    {
        self.check_open()?;
        self.check_held(event, 0)?;
        self.check_post(post)?;
        Ok(self.full_entry(event, post))
    }

    // The present cluster of a post.
    pub fn cluster(&self, post: u8) -> Result<PostSet, AskFault>
        ensures barred { self.now.barred ≡ true → result ≡ Err Barred }
        ensures answer { Wherever P.Policy K.Keeper self.now (λ R n h. result ≡ clusters_at R n h post) }
    {
        self.check_open()?;
        self.check_post(post)?;
        Ok(self.partition.cluster(post))
    }
}
