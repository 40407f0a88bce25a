// How a station is to be opened, as values that can be read from a text: a policy, a keeper and layers over it.

// The most layers that a pile chosen at run time can have.
pub const MOST_LAYERS: usize = 8;

#[derive(Clone, Copy, PartialEq, Eq, Debug)]
pub enum PolicyChoice {
    // First contact.
    First { limit: u8 },
    // By traffic, with so many exchanges for each post.
    Traffic { limit: u8, rate: u16 },
}

// The keeper at the bottom of a pile, with the memory that it lies over.
#[derive(Clone, Copy, PartialEq, Eq, Debug)]
pub enum KeeperChoice {
    Pool { cells: u32 },
    Columns { bytes: u32 },
}

#[derive(Clone, Copy, PartialEq, Eq, Debug)]
pub enum LayerChoice {
    // A layer that does nothing.
    Bare,
    Quota { allowance: u32 },
    Shelf,
}

#[derive(Clone, Copy, PartialEq, Eq, Debug)]
pub struct Opening {
    pub posts: u8,
    pub policy: PolicyChoice,
    pub keeper: KeeperChoice,
    // From the bottom up; bare ones stand above the others. An opening is `Copy`, which a `Vec` of layers would end.
    pub layers: [LayerChoice; MOST_LAYERS],
}
