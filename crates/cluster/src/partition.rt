// The partition of the posts into clusters.
ghost use Rattle.std.specs.Prelude.{◌≤◌};
ghost use Rattle.cluster.specs.Laws.{Parted};
ghost use Rattle.cluster.specs.Sets.{bits_at};

use order::posts::PostSet;

mod calls;

// For each post the set of its cluster's posts. Every post lies in exactly one cluster: a value with a post in two,
// or in none, does not exist. The project allows no heap here, so the table has room for 64 posts, and their number
// stands beside it.
#[derive(Clone, Copy)]
pub struct Partition {
    posts: u8,
    sets: [PostSet; 64],
    ghost few: { posts ≤ 64 },
    ghost parted: { ∥ Parted posts (bits_at sets) ∥₁ },
}
