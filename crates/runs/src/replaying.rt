// Playing turns on a station one after the other.
ghost use Rattle.std.specs.Prelude.{◌≡◌, min, true, map, length, take};
ghost use Rattle.runs.specs.Calls.{barred as refusal};
ghost use Rattle.runs.specs.Played.{Replayed};
ghost use Rattle.runs.specs.Views.{calls, replies, with_slices, RestKept};
ghost use Rattle.station.specs.Stands.{Wherever};

use super::playing::play;
use super::turns::{Answer, Turn};
use cluster::policy::Policy;
use keeper::Keeper;
use station::state::Station;

// Makes as many of the turns as there are places for answers, in order, and says how many. It takes no memory, so
// it cannot stop early. The two lists are no list of pairs, since either may be the longer.
pub fn replay<P: Policy + Drop, K: Keeper + Drop>(
    station: &mut Station<P, K>,
    turns: &mut [Turn],
    answers: &mut [Answer],
) -> usize
    ensures count { result ≡ min (length turns.old) (length answers.old) }
    ensures barred { station.old.barred ≡ true → (replies result turns.new answers.new ≡ map refusal (calls result turns.old)) × (station.new ≡ station.old) }
    ensures played { Wherever P.Policy K.Keeper station.old (λ _ _ h. Replayed P.Policy K.Keeper station.old station.new h (calls result turns.old) (replies result turns.new answers.new)) }
    ensures arguments { calls result turns.new ≡ with_slices (calls result turns.old) (take result turns.new) }
    ensures rest { RestKept result turns.old turns.new answers.old answers.new }
{
    let count = turns.len().min(answers.len());
    // By place: of slices that are zipped by `iter_mut`, a proof knows no element afterwards.
    for place in 0..count {
        answers[place] = play(station, &mut turns[place]);
    }
    count
}
