// Playing a turn on a station.
ghost use Rattle.std.specs.Prelude.{◌≡◌, true};
ghost use Rattle.runs.specs.Calls.{barred as refusal};
ghost use Rattle.runs.specs.Played.{Played};
ghost use Rattle.runs.specs.Views.{call_of, reply_of, slice_of, with_slice};
ghost use Rattle.station.specs.Stands.{Wherever};

use super::turns::{Answer, Turn};
use cluster::policy::Policy;
use keeper::Keeper;
use station::state::Station;

// Makes one turn's call. A turn is a value and no closure, since the comparison equates the turns of two stations.
pub fn play<P: Policy + Drop, K: Keeper + Drop>(
    station: &mut Station<P, K>,
    turn: &mut Turn,
) -> Answer
    ensures barred { station.old.barred ≡ true → (reply_of turn.new result ≡ refusal (call_of turn.old)) × (station.new ≡ station.old) }
    ensures played { Wherever P.Policy K.Keeper station.old (λ _ _ h. Played P.Policy K.Keeper station.old station.new h (call_of turn.old) (reply_of turn.new result)) }
    ensures arguments { call_of turn.new ≡ with_slice (call_of turn.old) (slice_of turn.new) }
{
    match turn {
        Turn::Take(bytes) => Answer::Took(station.take(bytes)),
        Turn::Feed(bytes) => Answer::Fed(station.feed(bytes)),
        Turn::Relate(first, second) => Answer::Related(station.relate(*first, *second)),
        Turn::Reach(event, post) => Answer::Reached(station.reach(*event, *post)),
        Turn::Horizon(events, slice) => Answer::Wrote(station.horizon(events, slice)),
        Turn::Heard(events) => Answer::Heard(station.heard(events)),
        Turn::Cluster(post) => Answer::Clustered(station.cluster(*post)),
    }
}
