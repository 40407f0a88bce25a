// Feeding records laid end to end.
ghost use Rattle.std.specs.Prelude.{◌≡◌, ◌%◌, true, length, Err, ◌≢◌};
ghost use Rattle.station.specs.Stands.{Fed, Wherever};
ghost use Rattle.station.specs.declared.faults.FeedFault.TheVariants.{Ragged, Take};
ghost use Rattle.station.specs.declared.faults.TakeFault.TheVariants.{Barred};

use super::faults::{FeedFault, TakeFault};
use super::state::Station;
use cluster::policy::Policy;
use keeper::Keeper;
use order::record::RECORD_LEN;

impl<P: Policy + Drop, K: Keeper + Drop> Station<P, K> {
    // Takes each record of a feed in order, up to the first that is refused, and says how many were taken.
    pub fn feed(&mut self, bytes: &[u8]) -> Result<usize, FeedFault>
        ensures barred { self.old.barred ≡ true → (result ≡ Err (Take 0 Barred)) × (self.new ≡ self.old) }
        ensures ragged { Wherever P.Policy K.Keeper self.old (λ _ _ _. (length bytes.now % 8 ≢ 0) → (result ≡ Err Ragged) × (self.new ≡ self.old)) }
        ensures fed { Wherever P.Policy K.Keeper self.old (λ _ _ h. length bytes.now % 8 ≡ 0 → Fed P.Policy K.Keeper self.old self.new h bytes.now result) }
    {
        // Not by `check_open`, whose fault is that of a question.
        if self.barred {
            return Err(FeedFault::Take {
                place: 0,
                fault: TakeFault::Barred,
            });
        }
        let (records, rest) = bytes.as_chunks::<RECORD_LEN>();
        if !rest.is_empty() {
            return Err(FeedFault::Ragged);
        }
        for (taken, record) in records.iter().enumerate() {
            let place = taken * RECORD_LEN;
            self.take(record)
                .map_err(|fault| FeedFault::Take { place, fault })?;
        }
        Ok(records.len())
    }
}
