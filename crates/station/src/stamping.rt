// The stamp that a record is to have.
ghost use Rattle.std.specs.Prelude.{◌≡◌, ◌∷◌, map};
ghost use Rattle.cluster.specs.Clusters.{cover as cover_of, latest_full};
ghost use Rattle.order.specs.Posts.{members, size};
ghost use Rattle.order.specs.Records.{Bytes, number as number_of, post as post_of};
ghost use Rattle.station.specs.Drafts.{at, Drafted, Due, Ruled};
ghost use Rattle.station.specs.Stands.{Wherever};

use super::drafts::{Draft, Ruling};
use super::state::Station;
use arrayvec::ArrayVec;
use cluster::outcome::Outcome;
use cluster::policy::Policy;
use join::vector::Vector;
use keeper::Keeper;
use keeper::admit::Header;
use order::event::{Event, Kind};
use order::posts::PostSet;
use order::record::Record;

// How many posts a set has, as a byte: there are at most 64.
#[tactic(auto, using(order::proofs::PostSets::length_below_le))]
pub(crate) fn size_of(posts: PostSet) -> u8
    ensures { result ≡ size posts.bits }
{
    posts.size() as u8
}

// The entries of a vector for the posts of a cover, ascending.
pub fn cut(vector: Vector, cover: PostSet) -> ArrayVec<u16, 64>
    ensures { result.items ≡ map (at vector) (members cover.bits) }
{
    let mut entries = ArrayVec::new();
    for post in cover.members() {
        entries.push(vector.entry(post));
    }
    entries
}

impl Draft {
    // The entries that are kept: those for the posts of the cover, ascending.
    pub fn entries(&self) -> ArrayVec<u16, 64>
        ensures { result.items ≡ map (at self.now.vector) (members self.now.header.cover.bits) }
    {
        cut(self.vector, self.header.cover)
    }
}

impl<P: Policy, K: Keeper> Station<P, K> {
    // The self-organizing cluster rule: what becomes of the record, and the posts whose entries are kept of it.
    pub fn ruling(&self, record: Record) -> Ruling
        ensures { Wherever P.Policy K.Keeper self.now (λ R n h. (b : Bytes) → Due n h b «record» → Ruled R n h b result) }
    {
        let own = self.partition.cluster(record.event.post);
        let other = self.partition.cluster(record.partner.post);
        let same = own.contains(record.partner.post);
        let all = PostSet::first(self.partition.posts());
        let (outcome, cover) = match (record.kind, same) {
            (Kind::Receive, false)
                if self.policy.ask(
                    size_of(own),
                    size_of(other),
                    self.exchanges.between(own, other),
                ) => (Outcome::Merged, own.union(other)),
            (Kind::Receive, false) => (Outcome::Across, all),
            _ => (Outcome::Plain, own),
        };
        Ruling { outcome, cover }
    }

    // The number of the post's latest full event up to the one that a record reports next.
    pub fn next_full(&self, record: Record, cover: PostSet) -> u16
        ensures { Wherever P.Policy K.Keeper self.now (λ R n h. (b : Bytes) → Due n h b «record» → cover.bits ≡ cover_of R n h b → result ≡ latest_full R n (b ∷ h) (post_of b) (number_of b)) }
    {
        if cover == PostSet::first(self.keeper.posts()) {
            return record.event.number;
        }
        self.latest_full(Event {
            post: record.event.post,
            number: record.event.number.saturating_sub(1),
        })
    }

    pub fn draft(&self, record: Record) -> Draft
        ensures { Wherever P.Policy K.Keeper self.now (λ R n h. (b : Bytes) → Due n h b «record» → Drafted R n h b result) }
    {
        let ruling = self.ruling(record);
        let full = self.next_full(record, ruling.cover);
        Draft {
            record,
            outcome: ruling.outcome,
            header: Header {
                kind: record.kind,
                cover: ruling.cover,
                full,
            },
            vector: self.next_vector(record),
        }
    }
}
