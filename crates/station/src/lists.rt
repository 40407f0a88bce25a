// Questions about lists of events: what they reach together, by the running join.
ghost use Rattle.std.specs.Prelude.{◌≡◌, ℕ, ◌<◌, max, true, length, IfOk, Ok, Err, slice_index};
ghost use Rattle.station.specs.Asks.{farthest, hears, horizon_slice, horizons, listed, of_list, OrderFreeAnswers};
ghost use Rattle.station.specs.Drafts.{at};
ghost use Rattle.station.specs.Reaches.{HasEntries, HasPosts};
ghost use Rattle.station.specs.ReachesLemmas.{entries_joined, posts_joined};
ghost use Rattle.station.specs.Stands.{Wherever};
ghost use Rattle.station.specs.declared.asks.AskFault.TheVariants.{Barred};

use super::asks::AskFault;
use super::state::Station;
use cluster::policy::Policy;
use join::vector::Vector;
use join::{Join, Running};
use keeper::Keeper;
use order::event::Event;
use order::posts::{MAX_POSTS, PostSet};

// What a list of events reaches, as it is read of each event's full vector and joined.
trait Reach: Join + Copy {
    // What the value says of a vector's entries.
    ghost tells: { Self → (ℕ → ℕ) → Type 0 };

    fn of(vector: Vector) -> Self
        ensures { tells result (at vector) };

    ghost joins: { (x y : Self) (f g : ℕ → ℕ) → tells x f → tells y g → tells (Self.join x y) (λ q. max (f q) (g q)) };
}

// The largest entry for each post.
impl Reach for Vector {
    ghost tells = { HasEntries };

    ghost joins = { entries_joined };

    fn of(vector: Vector) -> Vector {
        vector
    }
}

// The posts that have an entry above 0.
impl Reach for PostSet {
    ghost tells = { HasPosts };

    ghost joins = { posts_joined };

    #[tactic(auto, using(crate::proofs::Farthest::none_below))]
    fn of(vector: Vector) -> PostSet {
        let mut posts = PostSet::empty();
        // Over the posts themselves: nothing is indexed.
        for post in 0..MAX_POSTS {
            if vector.entry(post) > 0 {
                posts.insert(post);
            }
        }
        posts
    }
}

// Writes a vector's entries into a slice, from the first post on, as far as both reach. A shelf does as much with a stamp's
// entries, but a crate that both stand on for two lines would be no plainer.
fn write(vector: Vector, slice: &mut [u16])
    ensures { (q : ℕ) → q < 64 → q < length slice.old → slice_index slice.new q ≡ at vector q }
{
    let places = slice.len().min(vector.entries.len());
    slice[..places].copy_from_slice(&vector.entries[..places]);
}

impl<P: Policy, K: Keeper> Station<P, K> {
    // Writes for each post the largest entry that one of the events has for it. A refusal leaves the slice.
    pub fn horizon(&self, events: &[Event], slice: &mut [u16]) -> Result<(), AskFault>
        ensures barred { self.now.barred ≡ true → (result ≡ Err Barred) × (slice.new ≡ slice.old) }
        ensures answer { Wherever P.Policy K.Keeper self.now (λ _ n h. (result ≡ horizons n h events.now (length slice.old)) × (slice.new ≡ horizon_slice n h events.now result slice.old)) }
    {
        self.check_open()?;
        if slice.len() != usize::from(self.keeper.posts()) {
            return Err(AskFault::SliceLength);
        }
        let reach: Vector = self.together(events)?;
        write(reach, slice);
        Ok(())
    }

    // The posts that one of the events has heard of.
    pub fn heard(&self, events: &[Event]) -> Result<PostSet, AskFault>
        ensures barred { self.now.barred ≡ true → result ≡ Err Barred }
        ensures answer { Wherever P.Policy K.Keeper self.now (λ _ n h. result ≡ hears n h events.now) }
    {
        self.check_open()?;
        self.together(events)
    }

    // What all the events reach together.
    fn together<R: Reach>(&self, events: &[Event]) -> Result<R, AskFault>
        ensures { Wherever P.Policy K.Keeper self.now (λ _ n h. (listed result ≡ listed (of_list n h events.now (Ok (tt {0})))) × IfOk result (λ x. R.tells x (farthest h events.now))) }
    {
        let Some(first) = events.first() else {
            return Err(AskFault::NoEvents);
        };
        let mut reach = Running::new(R::of(self.vector(*first)));
        for (place, event) in events.iter().enumerate() {
            self.check_held(*event, place)?;
            reach.add(R::of(self.vector(*event)));
        }
        Ok(reach.value())
    }
}

// The order and the repeats of the events of a list make no difference to what it reaches.
#[tactic(auto, using(crate::proofs::Farthest::same_answers))]
pub fn order_free()
    ensures { OrderFreeAnswers }
{}
