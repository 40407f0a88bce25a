// Why a keeper refuses a call.

#[derive(Clone, Copy, PartialEq, Eq, Debug)]
pub enum KeeperFault {
    // The post is not one of the keeper's.
    UnknownPost,
    // The cover has a post that is not the keeper's, or another size than the entries.
    BadCover,
    // The post has as many stamps as there are numbers.
    Full,
    // The price is above the post's space; both in cells.
    NoSpace { wanted: usize, left: usize },
    // The post has no stamp of that number.
    NotHeld,
    // The stamp has no entry for that post.
    NotCovered,
}
