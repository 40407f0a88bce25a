// The grounds on which a record is refused before anything is decided on its stamp.
ghost use Rattle.std.specs.Prelude.{◌≡◌, ◌<◌};
ghost use Rattle.order.specs.Records.{Bytes, partner};
ghost use Rattle.station.specs.Stands.{Wherever};
ghost use Rattle.station.specs.Takes.{judged, partner_judged};

use super::faults::TakeFault;
use super::state::Station;
use cluster::policy::Policy;
use keeper::Keeper;
use order::event::{Event, Kind};
use order::record::Record;

impl<P: Policy, K: Keeper> Station<P, K> {
    // The record, if none of the grounds on its form, its number and its partner refuses it.
    pub fn judge(&self, bytes: &[u8]) -> Result<Record, TakeFault>
        ensures { Wherever P.Policy K.Keeper self.now (λ _ n h. result ≡ judged n h bytes.now) }
    {
        let record = Record::read(bytes, self.keeper.posts())?;
        if record.event.number.checked_sub(1) != Some(self.count(record.event.post)) {
            return Err(TakeFault::OutOfTurn);
        }
        if record.kind == Kind::Receive {
            self.judge_partner(record.partner)?;
        }
        Ok(record)
    }

    // Whether a receive may name this send.
    #[tactic(auto, using(crate::proofs::Judged::partner_missing, crate::proofs::Judged::partner_no_send, crate::proofs::Judged::partner_received, crate::proofs::Judged::partner_fresh))]
    fn judge_partner(&self, send: Event) -> Result<(), TakeFault>
        ensures { Wherever P.Policy K.Keeper self.now (λ _ n h. (b : Bytes) → partner b ≡ send → send.post < n → result ≡ partner_judged h b) }
    {
        if !self.holds(send) {
            return Err(TakeFault::PartnerNotHeld);
        }
        if !self.is_send(send) {
            return Err(TakeFault::PartnerNotSend);
        }
        if self.is_received(send) {
            return Err(TakeFault::AlreadyReceived);
        }
        Ok(())
    }
}
