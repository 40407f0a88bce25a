// The tests that every keeper makes, by numbers alone, in the order in which a keeper owes its failures.
ghost use Rattle.std.specs.Prelude.{◌≡◌, ◌+◌, ◌≤◌, Ok};
ghost use Rattle.keeper.specs.Answers.{admission, of_post, of_stamp};
ghost use Rattle.keeper.specs.Piles.{opened, price};

use super::fault::KeeperFault;
use order::event::{Event, Kind};
use order::posts::{MAX_POSTS, PostSet};

// What is kept of an event, but for its mark and its entries.
#[derive(Clone, Copy, PartialEq, Eq, Debug)]
pub struct Header {
    pub kind: Kind,
    pub cover: PostSet,
    // The number of the post's latest full event up to this one, or 0, as a cell keeps it.
    pub full: u16,
}

// The cells that a stamp costs.
pub fn price(entries: u8) -> usize
    ensures { result ≡ price entries }
{
    entries as usize + 8
}

// The number of posts of what is opened for so many: for more than there can be it is opened for none.
pub fn opened(posts: u8) -> u8
    ensures value { result ≡ opened posts }
    ensures few { result ≤ 64 }
{
    if posts > MAX_POSTS { 0 } else { posts }
}

// Whether the post is one of the keeper's.
pub fn known(posts: u8, post: u8) -> Result<(), KeeperFault>
    ensures { result ≡ of_post posts post tt }
{
    if post >= posts {
        return Err(KeeperFault::UnknownPost);
    }
    Ok(())
}

// Whether a stamp with this cover and so many entries goes in. By numbers and not by a struct of them, which each keeper
// would only fill to hand it on.
pub fn admit(
    posts: u8,
    count: u16,
    space: usize,
    post: u8,
    cover: PostSet,
    entries: usize,
) -> Result<(), KeeperFault>
    ensures { result ≡ admission posts count space post cover.bits entries }
{
    known(posts, post)?;
    let size = cover.size();
    if cover.rank(posts) as usize != entries || size as usize != entries {
        return Err(KeeperFault::BadCover);
    }
    if count == u16::MAX {
        return Err(KeeperFault::Full);
    }
    let wanted = price(size as u8);
    if space < wanted {
        return Err(KeeperFault::NoSpace {
            wanted,
            left: space,
        });
    }
    Ok(())
}

// Whether a stamp is held.
pub fn locate(posts: u8, count: u16, event: Event) -> Result<(), KeeperFault>
    ensures { result ≡ of_stamp posts count event.post event.number (Ok tt) }
{
    known(posts, event.post)?;
    if event.number == 0 || event.number > count {
        return Err(KeeperFault::NotHeld);
    }
    Ok(())
}
