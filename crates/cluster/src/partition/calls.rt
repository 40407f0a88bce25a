// What a partition answers, and the partition after a merge.
ghost use Rattle.std.specs.Prelude.{◌≡◌, ℕ, ◌^◌, ◌<◌, ◌≤◌, ◌⊎◌, if◌then◌else◌};
ghost use Rattle.cluster.specs.Laws.{Parted};
ghost use Rattle.cluster.specs.Partitions.{clusters, joined, singles};
ghost use Rattle.cluster.specs.Sets.{bits_at};
ghost use Rattle.keeper.specs.Piles.{opened};
ghost use Rattle.order.specs.Posts.{has};

use super::Partition;
use keeper::admit::opened;
use order::posts::{MAX_POSTS, PostSet};
use std::array;

// Each post alone.
fn alone() -> [PostSet; 64]
    ensures { (q : ℕ) → q < 64 → bits_at result q ≡ 2 ^ q }
{
    array::from_fn(|post| PostSet::from_bits(1 << post))
}

// The members of a set have it for their own; the other posts keep theirs.
fn with_cluster(sets: &[PostSet; 64], both: PostSet) -> [PostSet; 64]
    ensures { (q : ℕ) → q < 64 → bits_at result q ≡ (if has both.bits q then both.bits else bits_at sets.now q) }
{
    array::from_fn(|post| if both.contains(post as u8) {
        both
    } else {
        sets[post]
    })
}

impl Partition {
    // Each post alone in its cluster. More than 64 posts are opened as none.
    pub fn open(posts: u8) -> Partition
        ensures posts { result.posts ≡ opened posts }
        ensures clusters { (q : ℕ) → clusters result q ≡ singles (opened posts) q }
    {
        Partition {
            posts: opened(posts),
            sets: alone(),
        }
    }

    // The number of posts, all of which the clusters part.
    #[tactic(auto, using(crate::proofs::Partitions::parts))]
    pub fn posts(&self) -> u8
        ensures posts { result ≡ self.now.posts }
        ensures few { result ≤ 64 }
        ensures parted { Parted result (clusters self.now) }
    {
        self.posts
    }

    // The posts of a post's cluster; none for an unknown post.
    pub fn cluster(&self, post: u8) -> PostSet
        ensures { result.bits ≡ clusters self.now post }
    {
        if post < self.posts {
            self.sets[post as usize]
        } else {
            PostSet::empty()
        }
    }

    // Whether two posts share a cluster.
    pub fn same(&self, a: u8, b: u8) -> bool
        ensures { result ≡ has (clusters self.now a) b }
    {
        self.cluster(a).contains(b)
    }

    // The partition in which the clusters of two posts are one, and every other is as it was. An unknown post
    // changes nothing.
    pub fn merge(&self, a: u8, b: u8) -> Partition
        ensures posts { result.posts ≡ self.now.posts }
        ensures clusters { (q : ℕ) → clusters result q ≡ joined (clusters self.now) a b q }
        ensures unknown { (self.now.posts ≤ a) ⊎ (self.now.posts ≤ b) → (q : ℕ) → clusters result q ≡ clusters self.now q }
    {
        let both = self.cluster(a).union(self.cluster(b));
        Partition {
            posts: self.posts,
            sets: with_cluster(&self.sets, both),
        }
    }
}
