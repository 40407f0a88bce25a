// Entering a stamp: the keeper and the exchanges, then the partition. Nothing changes before the append has succeeded.
ghost use Rattle.std.specs.Prelude.{◌≡◌, ◌≤◌, ◌∷◌, MatchResult};
ghost use Rattle.order.specs.History.{History, Valid};
ghost use Rattle.order.specs.Records.{Bytes, number as number_of, post as post_of};
ghost use Rattle.cluster.specs.Rules.{Rule};
ghost use Rattle.station.specs.Drafts.{Drafted};
ghost use Rattle.station.specs.Entries.{Groups, Stamped, room_for};
ghost use Rattle.station.specs.Stands.{Wherever};

use super::drafts::Draft;
use super::state::Station;
use cluster::outcome::Outcome;
use cluster::policy::Policy;
use keeper::Keeper;
use keeper::fault::KeeperFault;
use order::event::Kind;

impl<P: Policy + Drop, K: Keeper + Drop> Station<P, K> {
    // Keeps the stamp; then marks a receive's send and counts the exchange.
    pub fn keep(&mut self, draft: &Draft) -> Result<(), KeeperFault>
        ensures same { (self.new.policy ≡ self.old.policy) × ((self.new.partition ≡ self.old.partition) × (self.new.barred ≡ self.old.barred)) }
        ensures kept { Wherever P.Policy K.Keeper self.old (λ R n h. (b : Bytes) → number_of b ≤ 65535 → Drafted R n h b draft.now → K.sound self.new.keeper × (result ≡ room_for R n h b ((K.meaning self.old.keeper).space (post_of b))) × MatchResult result (λ _. Stamped R n h b (K.meaning self.old.keeper) (K.meaning self.new.keeper) self.new.exchanges) (λ _. (K.meaning self.new.keeper ≡ K.meaning self.old.keeper) × (self.new.exchanges ≡ self.old.exchanges))) }
    {
        let post = draft.record.event.post;
        self.keeper.append(post, draft.header, &draft.entries())?;
        if draft.record.kind == Kind::Receive {
            let _ = self.keeper.mark(draft.record.partner);
            self.exchanges.note(post, draft.record.partner.post);
        }
        Ok(())
    }

    // Merges the two clusters of a receive that the cluster rule merges.
    pub fn regroup(&mut self, draft: &Draft)
        ensures same { (self.new.policy ≡ self.old.policy) × ((self.new.keeper ≡ self.old.keeper) × ((self.new.exchanges ≡ self.old.exchanges) × (self.new.barred ≡ self.old.barred))) }
        ensures grouped { (R : Rule) (h : History) (b : Bytes) → Valid self.old.partition.posts h → Drafted R self.old.partition.posts h b draft.now → Groups R self.old.partition.posts h self.old.partition → Groups R self.old.partition.posts (b ∷ h) self.new.partition }
    {
        if draft.outcome == Outcome::Merged {
            self.partition = self
                .partition
                .merge(draft.record.event.post, draft.record.partner.post);
        }
    }
}
