// A layer that limits what may be put into the keeper below.
ghost use Rattle.std.specs.Prelude.{◌≡◌, ◌-◌};
ghost use Rattle.layers.specs.Limits.{limited, quota_meaning, QuotaSound};

use keeper::Keeper;
use keeper::admit::{Header, admit, price};
use keeper::fault::KeeperFault;
use order::event::{Event, Kind};
use order::posts::PostSet;

// What the layer itself keeps: the cells that may still be used, by all posts together.
#[derive(Clone, Copy, PartialEq, Eq, Debug)]
struct Allowance {
    left: u32,
}

impl Allowance {
    fn pay(&mut self, cells: usize)
        ensures { self.new.left ≡ self.old.left - cells }
    {
        self.left = (self.left as usize).saturating_sub(cells) as u32;
    }
}

// A keeper over another whose stamps all posts together pay for out of one allowance.
#[derive(Drop)]
pub struct Quota<K> {
    below: K,
    allowance: Allowance,
}

impl<K: Keeper> Quota<K> {
    pub fn new(below: K, allowance: u32) -> Quota<K>
        ensures meaning { quota_meaning K.Keeper.meaning result ≡ limited (K.Keeper.meaning below) allowance }
        ensures sound { K.Keeper.sound below → QuotaSound K.Keeper.sound result }
    {
        Quota {
            below,
            allowance: Allowance { left: allowance },
        }
    }
}

impl<K: Keeper> Keeper for Quota<K> {
    ghost meaning = { quota_meaning K.Keeper.meaning };

    ghost sound = { QuotaSound K.Keeper.sound };

    fn posts(&self) -> u8 {
        self.below.posts()
    }

    fn count(&self, post: u8) -> Result<u16, KeeperFault> {
        self.below.count(post)
    }

    fn space(&self, post: u8) -> Result<usize, KeeperFault> {
        let below = self.below.space(post)?;
        Ok(below.min(self.allowance.left as usize))
    }

    fn kind(&self, event: Event) -> Result<Kind, KeeperFault> {
        self.below.kind(event)
    }

    fn marked(&self, event: Event) -> Result<bool, KeeperFault> {
        self.below.marked(event)
    }

    fn cover(&self, event: Event) -> Result<PostSet, KeeperFault> {
        self.below.cover(event)
    }

    fn full(&self, event: Event) -> Result<u16, KeeperFault> {
        self.below.full(event)
    }

    fn entry(&self, event: Event, post: u8) -> Result<u16, KeeperFault> {
        self.below.entry(event, post)
    }

    // The failures are looked for here, since the space that a refusal tells is the smaller one.
    fn append(&mut self, post: u8, header: Header, entries: &[u16]) -> Result<(), KeeperFault> {
        let count = self.count(post)?;
        let space = self.space(post)?;
        let posts = self.posts();
        admit(posts, count, space, post, header.cover, entries.len())?;
        self.below.append(post, header, entries)?;
        self.allowance.pay(price(entries.len() as u8));
        Ok(())
    }

    fn mark(&mut self, event: Event) -> Result<(), KeeperFault> {
        self.below.mark(event)
    }
}
