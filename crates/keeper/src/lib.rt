// The interface behind which stamps are kept: what every keeper of stamps answers, and what it leaves.
#![tactic(auto)]

ghost use Rattle.std.specs.Prelude.{◌≡◌, ◌≤◌};
ghost use Rattle.keeper.specs.Answers.{ask_count, ask_space, ask_kind, ask_marked, ask_cover, ask_full, ask_entry};
ghost use Rattle.keeper.specs.Moves.{Appends, Marks};
ghost use Rattle.keeper.specs.Piles.{Pile};

use admit::Header;
use fault::KeeperFault;
use order::event::{Event, Kind};
use order::posts::PostSet;

pub mod admit;
pub mod fault;

// A keeper of stamps. What it promises holds of each value that its opening and its calls give: that a value is
// such a one is `sound`. Over any other value its calls are safe and end, and nothing more. It is a premise here. A
// pool and columns carry the same fact in their types; a layer can't, since what it remembers must agree with the keeper
// below.
pub trait Keeper {
    ghost meaning: { Self → Pile };

    ghost sound: { Self → Type 0 };

    // The number of posts.
    fn posts(&self) -> u8
        ensures { sound self.now → (result ≡ (meaning self.now).posts) × (result ≤ 64) };

    // How many stamps the post has.
    fn count(&self, post: u8) -> Result<u16, KeeperFault>
        ensures { sound self.now → result ≡ ask_count (meaning self.now) post };

    // The cells that the post may still use.
    fn space(&self, post: u8) -> Result<usize, KeeperFault>
        ensures { sound self.now → result ≡ ask_space (meaning self.now) post };

    // The fields of a held stamp.
    fn kind(&self, event: Event) -> Result<Kind, KeeperFault>
        ensures { sound self.now → result ≡ ask_kind (meaning self.now) event };

    fn marked(&self, event: Event) -> Result<bool, KeeperFault>
        ensures { sound self.now → result ≡ ask_marked (meaning self.now) event };

    fn cover(&self, event: Event) -> Result<PostSet, KeeperFault>
        ensures { sound self.now → result ≡ ask_cover (meaning self.now) event };

    fn full(&self, event: Event) -> Result<u16, KeeperFault>
        ensures { sound self.now → result ≡ ask_full (meaning self.now) event };

    // A held stamp's entry for a post.
    fn entry(&self, event: Event, post: u8) -> Result<u16, KeeperFault>
        ensures { sound self.now → result ≡ ask_entry (meaning self.now) event post };

    // Puts a stamp, unmarked, at the end of the post's list.
    fn append(&mut self, post: u8, header: Header, entries: &[u16]) -> Result<(), KeeperFault>
        ensures { sound self.old → sound self.new × Appends (meaning self.old) (meaning self.new) post header entries.now result };

    // Marks a held stamp.
    fn mark(&mut self, event: Event) -> Result<(), KeeperFault>
        ensures { sound self.old → sound self.new × Marks (meaning self.old) (meaning self.new) event result };
}
