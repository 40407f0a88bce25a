// Taking a record: a decision that only reads, then an entry that can be refused for space alone.
ghost use Rattle.std.specs.Prelude.{◌≡◌, ◌≤◌, true, Err};
ghost use Rattle.order.specs.Records.{Bytes, number as number_of};
ghost use Rattle.station.specs.Drafts.{Drafted};
ghost use Rattle.station.specs.Stands.{Took, Wherever};
ghost use Rattle.station.specs.declared.faults.TakeFault.TheVariants.{Barred};

use super::drafts::Draft;
use super::faults::{TakeFault, Taken};
use super::stamping::size_of;
use super::state::Station;
use cluster::policy::Policy;
use keeper::Keeper;

impl<P: Policy + Drop, K: Keeper + Drop> Station<P, K> {
    // Enters a drafted stamp.
    fn enter(&mut self, draft: Draft) -> Result<Taken, TakeFault>
        ensures { Wherever P.Policy K.Keeper self.old (λ R n h. (b : Bytes) → number_of b ≤ 65535 → Drafted R n h b draft → Took P.Policy K.Keeper self.old self.new h b result) }
    {
        self.keep(&draft)?;
        self.regroup(&draft);
        Ok(Taken {
            outcome: draft.outcome,
            entries: size_of(draft.header.cover),
        })
    }

    // Takes one record.
    pub fn take(&mut self, bytes: &[u8]) -> Result<Taken, TakeFault>
        ensures barred { self.old.barred ≡ true → (result ≡ Err Barred) × (self.new ≡ self.old) }
        ensures took { Wherever P.Policy K.Keeper self.old (λ _ _ h. Took P.Policy K.Keeper self.old self.new h bytes.now result) }
    {
        // Not by `check_open`, whose fault is that of a question.
        if self.barred {
            return Err(TakeFault::Barred);
        }
        let record = self.judge(bytes)?;
        let draft = self.draft(record);
        self.enter(draft)
    }
}
