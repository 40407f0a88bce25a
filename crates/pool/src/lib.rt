// A keeper of stamps over a lent slice of 16-bit cells that all posts share.
//
// Stamps lie one after another from cell 0 on, in the order in which they were appended. A stamp takes eight cells
// of header and one for each entry:
//
//     0       the mark in bit 0, the kind in bits 1 and 2 (0 local, 1 send, 2 receive), the post from bit 3 on
//     1 to 4  the cover's bits, the lowest 16 first
//     5       the number of the post's latest full event, or 0
//     6, 7    the place of the post's previous stamp, the lower half first; 0 in a post's first stamp
//     8 ..    the entries for the covered posts, ascending
//
// Beside the cells stand the number of posts, how many cells are used, and for each post how many stamps it has and
// the place of its newest. A stamp is found by going back along the links from there.
#![tactic(auto)]

ghost use Rattle.std.specs.Prelude.{◌≡◌, ◌+◌, ◌-◌, ◌^◌, ◌<◌, ◌≤◌, length, slice_index};
ghost use Rattle.keeper.specs.Piles.{fresh, opened};
ghost use Rattle.pool.specs.Layout.{cover_at, link_at, with_stamp};
ghost use Rattle.pool.specs.Room.{Rooms, Finds};
ghost use Rattle.pool.specs.Stack.{Sound, pile, latest_of, empty_index};

use header::packed;
use keeper::Keeper;
use keeper::admit::{Header, admit, known, locate, opened};
use keeper::fault::KeeperFault;
use order::event::{Event, Kind};
use order::posts::{MAX_POSTS, PostSet};

mod header;

// The cells of a header.
const HEADER: usize = 8;

// What stands beside the cells. The cells are lent and nothing here allocates, so `used` counts what is filled, and
// stamps are named and linked by places.
#[derive(Drop)]
struct Index {
    posts: u8,
    // The cells in use. There are at most 64 * 65,535 stamps of at most 72 cells, so 32 bits hold any place.
    used: u32,
    latest: [Latest; 64],
}

// Of one post: how many stamps it has, and the place of the newest.
#[derive(Clone, Copy, Default, Drop)]
struct Latest {
    count: u16,
    newest: u32,
}

#[derive(Drop)]
pub struct Pool<'a> {
    cells: &'a mut [u16],
    index: Index,
    ghost sound: { Sound index cells.now },
}

// A pool with no stamps. For more than 64 posts it is opened for none.
#[tactic(auto, using(crate::proofs::Opens::empty_sound))]
pub fn open<'a>(posts: u8, cells: &'a mut [u16]) -> Pool<'a>
    ensures sound { Sound result.index result.cells.now }
    ensures meaning { pile result.index result.cells.now ≡ fresh (opened posts) (λ _. length cells.old) }
{
    Pool {
        cells,
        index: empty(posts),
    }
}

fn empty(posts: u8) -> Index
    ensures { result ≡ empty_index (opened posts) }
{
    Index {
        posts: opened(posts),
        used: 0,
        latest: [Latest::default(); 64],
    }
}

impl Pool<'_> {
    // A cell; past the end, 0.
    fn cell(&self, at: usize) -> u16
        ensures { result ≡ slice_index self.now.cells.now at }
    {
        self.cells.get(at).copied().unwrap_or(0)
    }

    // The cover of the stamp at this place. The library puts numbers together of bytes, and not of cells.
    #[tactic(auto, unfolding(crate::specs::Layout::cover_at))]
    fn cover_at(&self, place: u32) -> PostSet
        ensures is { result.bits ≡ cover_at self.now.cells.now place }
        ensures fits { result.bits < 2 ^ 64 }
    {
        let at = place as usize;
        let low = self.cell(at + 1) as u64 + self.cell(at + 2) as u64 * 0x1_0000;
        let high = self.cell(at + 3) as u64 + self.cell(at + 4) as u64 * 0x1_0000;
        PostSet::from_bits(low + high * 0x1_0000_0000)
    }

    // The place of the stamp before the one at this place, put together as a cover is.
    #[tactic(auto, unfolding(crate::specs::Layout::link_at))]
    fn link_at(&self, place: u32) -> u32
        ensures { result ≡ link_at self.now.cells.now place }
    {
        let at = place as usize;
        self.cell(at + 6) as u32 + self.cell(at + 7) as u32 * 0x1_0000
    }

    // What the index has of a post; of one past the last, nothing.
    fn latest_of(&self, post: u8) -> Latest
        ensures { result ≡ latest_of self.now.index.latest post }
    {
        self.index
            .latest
            .get(post as usize)
            .copied()
            .unwrap_or_default()
    }

    // The cells that are not in use.
    fn left(&self) -> usize
        ensures { result ≡ length self.now.cells.now - self.now.index.used }
    {
        self.cells.len() - self.index.used as usize
    }

    // The place of a held stamp: from the post's newest back along the links.
    fn find(&self, event: Event) -> Result<u32, KeeperFault>
        ensures { Finds self.now.index self.now.cells.now event result }
    {
        let latest = self.latest_of(event.post);
        locate(self.index.posts, latest.count, event)?;
        let mut place = latest.newest;
        for _ in event.number..latest.count {
            place = self.link_at(place);
        }
        Ok(place)
    }

    // Where a stamp with this cover and so many entries would end, if it goes in.
    #[tactic(auto, using(crate::proofs::Questions::count_is, keeper::proofs::Admitted::admitted, crate::proofs::Questions::roomy))]
    fn room(&self, post: u8, cover: PostSet, entries: usize) -> Result<u32, KeeperFault>
        ensures { Rooms self.now.index self.now.cells.now post cover.bits entries result }
    {
        let count = self.latest_of(post).count;
        admit(self.index.posts, count, self.left(), post, cover, entries)?;
        Ok((self.index.used as usize + HEADER + entries) as u32)
    }
}

// Writes a stamp's cells from this place on.
#[tactic(auto, using(crate::proofs::Cells::written_in_turn))]
fn lay(cells: &mut [u16], at: usize, header: [u16; 8], entries: &[u16])
    requires { at + 8 + length entries.now ≤ length cells.old }
    ensures { cells.new ≡ with_stamp cells.old at header entries.now }
{
    let body = at + HEADER;
    cells[at..body].copy_from_slice(&header);
    cells[body..body + entries.len()].copy_from_slice(entries);
}

impl<'a> Keeper for Pool<'a> {
    ghost meaning = { λ s. pile s.index s.cells.now };

    ghost sound = { λ s. Sound s.index s.cells.now };

    fn posts(&self) -> u8 {
        self.index.posts
    }

    #[tactic(auto, using(crate::proofs::Questions::count_is))]
    fn count(&self, post: u8) -> Result<u16, KeeperFault> {
        known(self.index.posts, post)?;
        Ok(self.latest_of(post).count)
    }

    fn space(&self, post: u8) -> Result<usize, KeeperFault> {
        known(self.index.posts, post)?;
        Ok(self.left())
    }

    #[tactic(auto, unfolding(crate::specs::Layout::code_at))]
    fn kind(&self, event: Event) -> Result<Kind, KeeperFault> {
        let place = self.find(event)?;
        let code = self.cell(place as usize) / 2 % 4;
        // No stamp is laid with the code 3.
        Ok(Kind::try_from(code as u8).unwrap_or(Kind::Receive))
    }

    #[tactic(auto, unfolding(crate::specs::Layout::mark_at))]
    fn marked(&self, event: Event) -> Result<bool, KeeperFault> {
        let place = self.find(event)?;
        Ok(self.cell(place as usize) % 2 == 1)
    }

    fn cover(&self, event: Event) -> Result<PostSet, KeeperFault> {
        let place = self.find(event)?;
        Ok(self.cover_at(place))
    }

    #[tactic(auto, unfolding(crate::specs::Layout::full_at))]
    fn full(&self, event: Event) -> Result<u16, KeeperFault> {
        let place = self.find(event)?;
        Ok(self.cell(place as usize + 5))
    }

    fn entry(&self, event: Event, post: u8) -> Result<u16, KeeperFault> {
        let place = self.find(event)?;
        let cover = self.cover_at(place);
        if !cover.contains(post) {
            return Err(KeeperFault::NotCovered);
        }
        Ok(self.cell(place as usize + HEADER + cover.rank(post) as usize))
    }

    fn append(&mut self, post: u8, header: Header, entries: &[u16]) -> Result<(), KeeperFault> {
        let end = self.room(post, header.cover, entries.len())?;
        let latest = self.latest_of(post);
        let place = self.index.used;
        let cells = packed(post, header, latest.newest);
        lay(self.cells, place as usize, cells, entries);
        self.index.latest[post as usize] = Latest {
            count: latest.count + 1,
            newest: place,
        };
        self.index.used = end;
        Ok(())
    }

    #[tactic(auto, using(crate::proofs::Marking::found_inside))]
    fn mark(&mut self, event: Event) -> Result<(), KeeperFault> {
        let place = self.find(event)?;
        let first = place as usize;
        self.cells[first] = self.cells[first] / 2 * 2 + 1;
        Ok(())
    }
}
