// Full vectors: an entry for each post.
ghost use Rattle.std.specs.Prelude.{◌≡◌, length, slice_index, slice_set};

use order::posts::MAX_POSTS;

// There is an entry for each of the 64 posts that a kiln can have.
#[derive(Clone, Copy, PartialEq, Eq, Debug)]
pub struct Vector {
    pub entries: [u16; 64],
    pub ghost full: { length entries ≡ 64 },
}

impl Vector {
    // The entry for a post; 0 from post 64 on.
    pub fn entry(&self, post: u8) -> u16
        ensures { result ≡ slice_index self.now.entries post }
    {
        self.entries.get(post as usize).copied().unwrap_or(0)
    }

    // Puts the entry for a post; from post 64 on the vector stays as it is. By a test, since a proof knows no element after
    // a write through `get_mut`.
    pub fn set(&mut self, post: u8, number: u16)
        ensures { self.new.entries ≡ slice_set self.old.entries post number }
    {
        if post < MAX_POSTS {
            self.entries[post as usize] = number;
        }
    }
}
