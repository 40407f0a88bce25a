// Sets of posts. A kiln has at most 64 posts, so a set is the bits of one `u64`.
ghost use Rattle.std.specs.Prelude.{◌≡◌, ℕ, ◌-◌, ◌^◌, ◌<◌, min, true, ◌&&◌, ◌||◌, length, if◌then◌else◌, ◌==◌, bit_or, nat_lt};
ghost use Rattle.order.specs.Posts.{has, below, members, size};
ghost use Rattle.order.specs.Walk.{rest, Steps};
ghost use Rattle.std.specs.Iterator.{at_most};

// How many posts a kiln can have.
pub const MAX_POSTS: u8 = 64;

#[derive(Clone, Copy, PartialEq, Eq, Debug)]
pub struct PostSet {
    bits: u64,
}

impl PostSet {
    pub fn empty() -> PostSet
        ensures { result.bits ≡ 0 }
    {
        PostSet { bits: 0 }
    }

    // The set as one number, bit q for post q, and back: for a store that has only numbers. By name, since a `From` would
    // not say that the number is of bits.
    pub fn bits(self) -> u64
        ensures { result ≡ self.bits }
    {
        self.bits
    }

    pub fn from_bits(bits: u64) -> PostSet
        ensures { result.bits ≡ bits }
    {
        PostSet { bits }
    }

    // Every post below `posts`, and none from 64 on.
    pub fn first(posts: u8) -> PostSet
        ensures bits { result.bits ≡ 2 ^ min posts 64 - 1 }
        ensures members { (q : ℕ) → has result.bits q ≡ (nat_lt q posts && nat_lt q 64) }
    {
        if posts >= MAX_POSTS {
            return PostSet { bits: u64::MAX };
        }
        PostSet {
            bits: (1 << posts) - 1,
        }
    }

    pub fn contains(self, post: u8) -> bool
        ensures value { result ≡ has self.bits post }
        ensures bound { result ≡ true → post < 64 }
    {
        post < MAX_POSTS && (self.bits >> post) & 1 == 1
    }

    // No set has a post from 64 on: there the set stays as it is.
    pub fn insert(&mut self, post: u8)
        ensures bits { self.new.bits ≡ (if nat_lt post 64 then bit_or self.old.bits (2 ^ post) else self.old.bits) }
        ensures members { (q : ℕ) → has self.new.bits q ≡ (has self.old.bits q || (q == post && nat_lt q 64)) }
    {
        if post < MAX_POSTS {
            self.bits |= 1 << post;
        }
    }

    pub fn union(self, other: PostSet) -> PostSet
        ensures bits { result.bits ≡ bit_or self.bits other.bits }
        ensures members { (q : ℕ) → has result.bits q ≡ (has self.bits q || has other.bits q) }
    {
        PostSet {
            bits: self.bits | other.bits,
        }
    }

    // How many members there are.
    pub fn size(self) -> u32
        ensures { result ≡ size self.bits }
    {
        self.bits.count_ones()
    }

    // How many members are below `post`: the place of `post` among the members, where it is one.
    pub fn rank(self, post: u8) -> u32
        ensures { result ≡ length (below post self.bits) }
    {
        if post >= MAX_POSTS {
            return self.bits.count_ones();
        }
        (self.bits & ((1 << post) - 1)).count_ones()
    }

    // The members, ascending.
    pub fn members(self) -> Members
        ensures { rest result ≡ members self.bits }
    {
        Members { set: self, next: 0 }
    }
}

// The members of a set from `next` on.
#[derive(Clone, Copy, Debug)]
pub struct Members {
    set: PostSet,
    next: u8,
}

impl Iterator for Members {
    type Item = u8;

    ghost next_gives = { Steps };

    ghost remaining = { λ s. at_most (length (rest s)) };

    fn next(&mut self) -> Option<u8> {
        for post in self.next..MAX_POSTS {
            self.next = post + 1;
            if self.set.contains(post) {
                return Some(post);
            }
        }
        None
    }
}
