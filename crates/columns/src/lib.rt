// A keeper of stamps over lent bytes, two to a cell, cut into one column of equal width for each post. A post's stamps lie
// in its own column only.
//
// From the front of a column lie the stamps, the oldest first, one right after another. A stamp takes six cells of header
// and one for each entry:
//
//     0       the kind's code (0 local, 1 send, 2 receive), and 256 more once it is marked
//     1 to 4  the cover's bits, the highest 16 first
//     5       the number of the post's latest full event, or 0
//     6 ..    the entries for the covered posts, ascending
//
// From the back of a column lie the places of its stamps, two cells for each, the higher half first: the last two cells
// are the place of stamp 1, the two before them that of stamp 2, and so on. A place counts cells from the column's start,
// so a stamp is found in one step. Header, entries and place come to the stamp's price. A post has at most 65,535 stamps
// of at most 70 cells each, so two cells hold any place.
//
// Beside the bytes stand the number of posts, the width of a column, and for each post its count and the cells left.
#![tactic(auto)]

ghost use Rattle.std.specs.Prelude.{◌≡◌, ℕ, ◌+◌, ◌-◌, ◌*◌, ◌/◌, ◌^◌, ◌<◌, ◌≤◌, length, IfOk, Ok, ◌≢◌};
ghost use Rattle.columns.specs.Cells.{cell_at};
ghost use Rattle.columns.specs.Layout.{Stored, Placed, Lies};
ghost use Rattle.columns.specs.Sound.{Sound, pile, column_width, unused};
ghost use Rattle.keeper.specs.Answers.{ask_stamp};
ghost use Rattle.keeper.specs.Moves.{Appends, unmarked};
ghost use Rattle.keeper.specs.Piles.{fresh, opened, stamp_of};
ghost use Rattle.order.specs.Posts.{size};

use cells::{cell, copy, pair, put_cell, word, write};
use keeper::Keeper;
use keeper::admit::{Header, admit, known, locate, opened, price};
use keeper::fault::KeeperFault;
use order::event::{Event, Kind};
use order::posts::PostSet;

mod cells;

// What a stamp's first cell has more once it is marked: the layout has kind and mark in one cell.
const MARK: u16 = 256;

// How full a post's column is.
#[derive(Clone, Copy)]
struct Fill {
    // its stamps
    count: u16,
    // the cells that the post may still use
    left: usize,
}

impl Fill {
    // That of a column as it is opened.
    fn unused(width: usize) -> Fill
        ensures { result ≡ unused width }
    {
        Fill {
            count: 0,
            left: width,
        }
    }
}

#[derive(Drop)]
pub struct Columns<'a> {
    cells: &'a mut [[u8; 2]],
    posts: u8,
    // The cells of a column.
    width: usize,
    // Room for 64 posts, as the project allows no heap here.
    fills: [Fill; 64],
    ghost sound: { Sound posts width fills cells.now },
    // A `usize` counts their cells: of the slice that is known only where it is used.
    ghost fits: { posts * width < 2 ^ 64 },
}

// Columns with no stamps. For more than 64 posts they are opened for none.
pub fn open(posts: u8, bytes: &mut [u8]) -> Columns<'_>
    ensures sound { Sound result.posts result.width result.fills result.cells.now }
    ensures meaning { pile result.posts result.width result.fills result.cells.now ≡ fresh (opened posts) (λ _. column_width posts (length bytes.old)) }
{
    let posts = opened(posts);
    let width = (bytes.len() / 2).checked_div(posts as usize).unwrap_or(0);
    Columns {
        cells: bytes.as_chunks_mut().0,
        posts,
        width,
        fills: [Fill::unused(width); 64],
    }
}

// Puts a stamp, unmarked, at a cell.
fn put_stamp(cells: &mut [[u8; 2]], at: usize, header: Header, entries: &[u16])
    requires inside { at + 6 + length entries.now ≤ length cells.old }
    requires sized { size header.cover.bits ≡ length entries.now }
    ensures { Stored (cell_at cells.old) (cell_at cells.new) at (unmarked header entries.now) }
{
    put_cell(cells, at, u16::from(u8::from(header.kind)));
    let cover = header.cover.bits().to_be_bytes();
    copy(cells, at + 1, cover.as_chunks().0);
    put_cell(cells, at + 5, header.full);
    write(cells, at + 6, entries);
}

// Puts a place, a number of two cells, at a cell.
fn put_place(cells: &mut [[u8; 2]], at: usize, place: usize)
    requires inside { at + 2 ≤ length cells.old }
    requires short { place < 2 ^ 32 }
    ensures { Placed (cell_at cells.old) (cell_at cells.new) at place }
{
    let place = place as u32;
    copy(cells, at, place.to_be_bytes().as_chunks().0);
}

impl Columns<'_> {
    ghost use Rattle.columns.specs.Meaning.{pile_of, fill_of, cells_of, cell_of};

    // How full the post's column is.
    fn fill(&self, post: u8) -> Fill
        ensures { result ≡ fill_of self.now post }
    {
        let fill = self.fills.get(post as usize);
        fill.copied().unwrap_or(Fill::unused(self.width))
    }

    // A cell; past the last, 0.
    fn cell(&self, i: usize) -> u16
        ensures { result ≡ cells_of self.now i }
    {
        cell(self.cells, i)
    }

    // The first cell of a post's column.
    #[tactic(auto, using(crate::proofs::Lanes::lanes_apart))]
    fn start_of(&self, post: u8) -> usize
        requires { post < self.now.posts }
        ensures { result ≡ post * self.now.width }
    {
        post as usize * self.width
    }

    // The first of the two cells that hold the place of a stamp.
    #[tactic(auto, using(crate::proofs::Lanes::lanes_apart))]
    fn place_cell(&self, post: u8, number: usize) -> usize
        requires known { post < self.now.posts }
        requires inside { 2 * number ≤ self.now.width }
        ensures { result ≡ post * self.now.width + self.now.width - 2 * number }
    {
        self.start_of(post) + self.width - 2 * number
    }

    // The cell at which a held stamp begins.
    #[tactic(auto, using(crate::proofs::Answered::counted))]
    fn find(&self, event: Event) -> Result<usize, KeeperFault>
        ensures within { IfOk result (λ at. (at + 6 ≤ length self.now.cells.now) × (at + 6 < 2 ^ 64)) }
        ensures answer { result ≡ ask_stamp (pile_of self.now) event (λ _. Ok (cell_of self.now event.post event.number)) }
        ensures lies { IfOk result (λ at. Lies (cells_of self.now) at (stamp_of (pile_of self.now) event.post event.number)) }
    {
        locate(self.posts, self.fill(event.post).count, event)?;
        let place = pair(
            self.cells,
            self.place_cell(event.post, event.number as usize),
        );
        Ok(self.start_of(event.post) + place as usize)
    }
}

impl<'a> Keeper for Columns<'a> {
    ghost use Rattle.columns.specs.Meaning.{sound_of, pile_of};

    ghost meaning = { pile_of };

    ghost sound = { sound_of };

    fn posts(&self) -> u8 {
        self.posts
    }

    #[tactic(auto, using(crate::proofs::Answered::counted))]
    fn count(&self, post: u8) -> Result<u16, KeeperFault> {
        known(self.posts, post)?;
        Ok(self.fill(post).count)
    }

    fn space(&self, post: u8) -> Result<usize, KeeperFault> {
        known(self.posts, post)?;
        Ok(self.fill(post).left)
    }

    fn kind(&self, event: Event) -> Result<Kind, KeeperFault> {
        let at = self.find(event)?;
        let code = (self.cell(at) % MARK) as u8;
        // No stamp is put with another code.
        Ok(Kind::try_from(code).unwrap_or(Kind::Receive))
    }

    fn marked(&self, event: Event) -> Result<bool, KeeperFault> {
        let at = self.find(event)?;
        Ok(self.cell(at) / MARK == 1)
    }

    fn cover(&self, event: Event) -> Result<PostSet, KeeperFault> {
        let at = self.find(event)?;
        Ok(PostSet::from_bits(word(self.cells, at + 1)))
    }

    fn full(&self, event: Event) -> Result<u16, KeeperFault> {
        let at = self.find(event)?;
        Ok(self.cell(at + 5))
    }

    fn entry(&self, event: Event, post: u8) -> Result<u16, KeeperFault> {
        let at = self.find(event)?;
        let cover = PostSet::from_bits(word(self.cells, at + 1));
        if !cover.contains(post) {
            return Err(KeeperFault::NotCovered);
        }
        let entries = &self.cells[at + 6..];
        Ok(cell(entries, cover.rank(post) as usize))
    }

    // What the trait says, and that the other posts' space stays as it is.
    #[tactic(auto, using(crate::proofs::Answered::counted, crate::proofs::Answered::paid, keeper::proofs::Admitted::admitted))]
    fn append(&mut self, post: u8, header: Header, entries: &[u16]) -> Result<(), KeeperFault>
        ensures keeps { sound_of self.old → sound_of self.new × Appends (pile_of self.old) (pile_of self.new) post header entries.now result }
        ensures others { (q : ℕ) → (q ≢ post) → (pile_of self.new).space q ≡ (pile_of self.old).space q }
    {
        let Fill { count, left } = self.fill(post);
        admit(self.posts, count, left, post, header.cover, entries.len())?;
        let front = self.width - left - 2 * count as usize;
        let at = self.start_of(post) + front;
        let back = self.place_cell(post, count as usize + 1);
        put_stamp(self.cells, at, header, entries);
        put_place(self.cells, back, front);
        self.fills[post as usize] = Fill {
            count: count + 1,
            left: left - price(entries.len() as u8),
        };
        Ok(())
    }

    fn mark(&mut self, event: Event) -> Result<(), KeeperFault> {
        let first = self.find(event)?;
        let kind = self.cell(first) % MARK;
        put_cell(self.cells, first, MARK + kind);
        Ok(())
    }
}
