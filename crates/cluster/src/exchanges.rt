// How often messages were received from one post at another.
ghost use Rattle.std.specs.Prelude.{◌≡◌, ℕ, ◌+◌, ◌-◌, ◌*◌, ◌^◌, ◌<◌, true, [], ◌∷◌, length};
ghost use Rattle.cluster.specs.Clusters.{exchanges as exchanges_of};
ghost use Rattle.cluster.specs.Counts.{Tells, capped, linked, noted, pair_sum, row_sum, told};
ghost use Rattle.order.specs.History.{History};
ghost use Rattle.order.specs.Records.{Bytes, partner_post, post as post_of, receives};

use order::posts::{MAX_POSTS, PostSet};

// For each receiving post a row of counts, one for each sending post. A count at its largest value stays there. The project
// allows no heap here, so there is room for 64 posts.
#[derive(Drop)]
pub struct Exchanges {
    counts: [[u32; 64]; 64],
}

// Whether two posts stand one in each of two sets. A struct for the two sets would serve this and `row` alone, since
// `between` takes them apart.
fn linked(a: PostSet, b: PostSet, receiver: u8, sender: u8) -> bool
    ensures { result ≡ linked a.bits b.bits receiver sender }
{
    a.contains(receiver) && b.contains(sender) || b.contains(receiver) && a.contains(sender)
}

impl Exchanges {
    // No exchanges yet.
    #[tactic(auto, using(crate::proofs::Counts::tells_none))]
    pub fn new() -> Exchanges
        ensures { Tells result [] }
    {
        Exchanges {
            counts: [[0; 64]; 64],
        }
    }

    // 0 for posts from 64 on.
    fn count(&self, receiver: u8, sender: u8) -> u32
        ensures { result ≡ told self.now receiver sender }
    {
        if receiver < MAX_POSTS && sender < MAX_POSTS {
            self.counts[receiver as usize][sender as usize]
        } else {
            0
        }
    }

    // Counts one more receive. Posts from 64 on are not counted; by a test, since a proof knows no element after a write
    // through `get_mut`.
    pub fn note(&mut self, receiver: u8, sender: u8)
        ensures counts { (p q : ℕ) → told self.new p q ≡ noted (told self.old) receiver sender p q }
        ensures tells { (h : History) (r : Bytes) → Tells self.old h → receives r ≡ true → post_of r ≡ receiver → partner_post r ≡ sender → receiver < 64 → sender < 64 → length h < 2 ^ 32 - 1 → Tells self.new (r ∷ h) }
    {
        if receiver < MAX_POSTS && sender < MAX_POSTS {
            let row = &mut self.counts[receiver as usize];
            row[sender as usize] = row[sender as usize].saturating_add(1);
        }
    }

    // The counts of one receiver, over the senders that are linked with it.
    fn row(&self, receiver: u8, a: PostSet, b: PostSet) -> u32
        ensures { result ≡ capped (row_sum (told self.now) a.bits b.bits receiver) }
    {
        (0..MAX_POSTS)
            .map(|sender| if linked(a, b, receiver, sender) {
                self.count(receiver, sender)
            } else {
                0
            })
            .fold(0, u32::saturating_add)
    }

    // The exchanges between two clusters, in both directions.
    pub fn between(&self, a: PostSet, b: PostSet) -> u32
        ensures sum { result ≡ capped (pair_sum (told self.now) a.bits b.bits) }
        ensures exchanges { (h : History) → Tells self.now h → length h < 2 ^ 32 → result ≡ exchanges_of h a.bits b.bits }
    {
        let rows = (0..MAX_POSTS).map(|receiver| self.row(receiver, a, b));
        rows.fold(0, u32::saturating_add)
    }
}
