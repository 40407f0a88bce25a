// A layer that remembers the latest stamp of each post.
ghost use Rattle.std.specs.Prelude.{◌≡◌, replicate, IfSome, None};
ghost use Rattle.keeper.specs.Piles.{Pile};
ghost use Rattle.layers.specs.Shelves.{over_front, entry_in, found, put_at, marked_at, Agrees, Tells, shelf_meaning, ShelfSound};

use keeper::Keeper;
use keeper::admit::Header;
use keeper::fault::KeeperFault;
use order::event::{Event, Kind};
use order::posts::{MAX_POSTS, PostSet};

// A stamp with its number.
#[derive(Clone, Copy)]
struct Slot {
    number: u16,
    marked: bool,
    header: Header,
    // As many entries as the cover has posts, and then zeros. What a layer keeps is plain and of fixed size, as the project
    // lays down.
    entries: [u16; 64],
}

impl Slot {
    fn entry(self, post: u8) -> Result<u16, KeeperFault>
        ensures { result ≡ entry_in self post }
    {
        if !self.header.cover.contains(post) {
            return Err(KeeperFault::NotCovered);
        }
        let rank = self.header.cover.rank(post);
        Ok(self.entries[rank as usize])
    }
}

// Writes the entries from the front on, as far as there is room.
fn copy_front(into: &mut [u16], entries: &[u16])
    ensures { into.new ≡ over_front into.old entries.now }
{
    let kept = entries.len().min(into.len());
    into[0..kept].copy_from_slice(&entries[0..kept]);
}

fn padded(entries: &[u16]) -> [u16; 64]
    ensures { result ≡ over_front (replicate 64 0) entries.now }
{
    let mut all = [0; 64];
    copy_front(&mut all, entries);
    all
}

// What the layer itself keeps: for each post the latest stamp, if it is known. The project allows no heap here, so there
// is room for 64 posts.
#[derive(Clone, Copy)]
struct ShelfTable {
    slots: [Option<Slot>; 64],
}

impl ShelfTable {
    fn new() -> ShelfTable
        ensures { result.slots ≡ replicate 64 None }
    {
        ShelfTable { slots: [None; 64] }
    }

    // The event's stamp, where it is the one that is remembered.
    fn find(&self, event: Event) -> Option<Slot>
        ensures found { result ≡ found self.now.slots event }
        ensures tells { (m : Pile) → Agrees m self.now.slots → IfSome result (λ s. Tells m event s) }
    {
        let latest = self.slots.get(event.post as usize).copied().flatten();
        latest.filter(|slot| slot.number == event.number)
    }

    fn put(&mut self, post: u8, slot: Slot)
        ensures { self.new.slots ≡ put_at self.old.slots post slot }
    {
        // By a test, since a proof knows no element after a write through `get_mut`.
        if post < MAX_POSTS {
            self.slots[post as usize] = Some(slot);
        }
    }

    fn mark(&mut self, event: Event)
        ensures { self.new.slots ≡ marked_at (found self.old.slots event) self.old.slots event.post }
    {
        if let Some(mut slot) = self.find(event) {
            slot.marked = true;
            self.put(event.post, slot);
        }
    }
}

// A keeper over another that answers for the latest stamps itself.
#[derive(Drop)]
pub struct Shelf<K> {
    below: K,
    table: ShelfTable,
}

impl<K: Keeper> Shelf<K> {
    // Nothing is remembered at first, whatever the keeper below holds.
    pub fn new(below: K) -> Shelf<K>
        ensures meaning { shelf_meaning K.Keeper.meaning result ≡ K.Keeper.meaning below }
        ensures sound { K.Keeper.sound below → ShelfSound K.Keeper.sound K.Keeper.meaning result }
    {
        let table = ShelfTable::new();
        Shelf { below, table }
    }
}

impl<K: Keeper> Keeper for Shelf<K> {
    ghost meaning = { shelf_meaning K.Keeper.meaning };

    ghost sound = { ShelfSound K.Keeper.sound K.Keeper.meaning };

    fn posts(&self) -> u8 {
        self.below.posts()
    }

    fn count(&self, post: u8) -> Result<u16, KeeperFault> {
        self.below.count(post)
    }

    fn space(&self, post: u8) -> Result<usize, KeeperFault> {
        self.below.space(post)
    }

    // As closures of `map_or_else` the two arms would read no plainer, here and in the next four.
    fn kind(&self, event: Event) -> Result<Kind, KeeperFault> {
        match self.table.find(event) {
            Some(slot) => Ok(slot.header.kind),
            None => self.below.kind(event),
        }
    }

    fn marked(&self, event: Event) -> Result<bool, KeeperFault> {
        match self.table.find(event) {
            Some(slot) => Ok(slot.marked),
            None => self.below.marked(event),
        }
    }

    fn cover(&self, event: Event) -> Result<PostSet, KeeperFault> {
        match self.table.find(event) {
            Some(slot) => Ok(slot.header.cover),
            None => self.below.cover(event),
        }
    }

    fn full(&self, event: Event) -> Result<u16, KeeperFault> {
        match self.table.find(event) {
            Some(slot) => Ok(slot.header.full),
            None => self.below.full(event),
        }
    }

    fn entry(&self, event: Event, post: u8) -> Result<u16, KeeperFault> {
        match self.table.find(event) {
            Some(slot) => slot.entry(post),
            None => self.below.entry(event, post),
        }
    }

    fn append(&mut self, post: u8, header: Header, entries: &[u16]) -> Result<(), KeeperFault> {
        let count = self.count(post)?;
        self.below.append(post, header, entries)?;
        let slot = Slot {
            number: count.saturating_add(1),
            marked: false,
            header,
            entries: padded(entries),
        };
        self.table.put(post, slot);
        Ok(())
    }

    fn mark(&mut self, event: Event) -> Result<(), KeeperFault> {
        self.below.mark(event)?;
        self.table.mark(event);
        Ok(())
    }
}
