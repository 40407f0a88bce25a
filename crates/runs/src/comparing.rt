// Two stations, each with its own policy and its own pile, and what holds of what they answer.
ghost use Rattle.std.specs.Prelude.{◌≡◌, min, length};
ghost use Rattle.runs.specs.Comparison.{AlikeUntilSpace, Each, OpenedAlike, RelateAlike};
ghost use Rattle.runs.specs.Views.{calls, replies, RestKept};

use super::replaying::replay;
use super::turns::{Answer, Turn};
use cluster::policy::Policy;
use keeper::Keeper;
use station::state::Station;

// Opens a station and plays turns on it; answers how many.
pub fn run<P: Policy + Drop, K: Keeper + Drop>(
    policy: P,
    keeper: K,
    turns: &mut [Turn],
    answers: &mut [Answer],
) -> usize
    ensures count { result ≡ min (length turns.old) (length answers.old) }
    ensures each { K.sound keeper → Each (P.rule policy) (K.meaning keeper) (calls result turns.old) (replies result turns.new answers.new) }
    ensures rest { RestKept result turns.old turns.new answers.old answers.new }
{
    let mut station = Station::open(policy, keeper);
    replay(&mut station, turns, answers)
}

// Opens two stations and plays turns on each; answers how many on the one and on the other.
// A side's four stay apart: in a struct of turns and answers, handed on, what they hold afterwards is tied to nothing, and
// the checker covers no generic call that is given slices and a policy in one struct.
pub fn compare<P: Policy + Drop, K: Keeper + Drop, Q: Policy + Drop, L: Keeper + Drop>(
    policy_a: P,
    keeper_a: K,
    turns_a: &mut [Turn],
    answers_a: &mut [Answer],
    policy_b: Q,
    keeper_b: L,
    turns_b: &mut [Turn],
    answers_b: &mut [Answer],
) -> (usize, usize)
    ensures count { (result.0 ≡ min (length turns_a.old) (length answers_a.old)) × (result.1 ≡ min (length turns_b.old) (length answers_b.old)) }
    ensures rest { RestKept result.0 turns_a.old turns_a.new answers_a.old answers_a.new × RestKept result.1 turns_b.old turns_b.new answers_b.old answers_b.new }
    ensures relate { K.Keeper.sound keeper_a → L.Keeper.sound keeper_b → RelateAlike (calls result.0 turns_a.old) (replies result.0 turns_a.new answers_a.new) (calls result.1 turns_b.old) (replies result.1 turns_b.new answers_b.new) }
    ensures equal_turns { K.Keeper.sound keeper_a → L.Keeper.sound keeper_b → OpenedAlike (P.Policy.rule policy_a) (Q.Policy.rule policy_b) (K.Keeper.meaning keeper_a) (L.Keeper.meaning keeper_b) → calls result.0 turns_a.old ≡ calls result.1 turns_b.old → AlikeUntilSpace (replies result.0 turns_a.new answers_a.new) (replies result.1 turns_b.new answers_b.new) }
    ensures each { (K.Keeper.sound keeper_a → Each (P.Policy.rule policy_a) (K.Keeper.meaning keeper_a) (calls result.0 turns_a.old) (replies result.0 turns_a.new answers_a.new)) × (L.Keeper.sound keeper_b → Each (Q.Policy.rule policy_b) (L.Keeper.meaning keeper_b) (calls result.1 turns_b.old) (replies result.1 turns_b.new answers_b.new)) }
{
    let a = run(policy_a, keeper_a, turns_a, answers_a);
    let b = run(policy_b, keeper_b, turns_b, answers_b);
    (a, b)
}
