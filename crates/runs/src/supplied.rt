// The comparison over the supplied keepers, opened over lent memory: nothing is left to assume of a pile. Both functions
// are `compare`, at piles that are opened over different things. Each side's arguments stay apart, as there.
ghost use Rattle.std.specs.Prelude.{◌≡◌, min, length};
ghost use Rattle.columns.specs.Sound.{column_width};
ghost use Rattle.keeper.specs.Piles.{fresh, opened};
ghost use Rattle.runs.specs.Comparison.{Compared};
ghost use Rattle.runs.specs.Views.{calls, replies};

use super::comparing::compare;
use super::turns::{Answer, Turn};
use cluster::policy::Policy;
use layers::quota::Quota;
use layers::shelf::Shelf;

// A station over a pool, and one over columns.
pub fn compare_pool_and_columns<P: Policy + Drop, Q: Policy + Drop>(
    policy_a: P,
    posts_a: u8,
    cells: &mut [u16],
    turns_a: &mut [Turn],
    answers_a: &mut [Answer],
    policy_b: Q,
    posts_b: u8,
    bytes: &mut [u8],
    turns_b: &mut [Turn],
    answers_b: &mut [Answer],
) -> (usize, usize)
    ensures count { (result.0 ≡ min (length turns_a.old) (length answers_a.old)) × (result.1 ≡ min (length turns_b.old) (length answers_b.old)) }
    ensures compared { Compared (P.Policy.rule policy_a) (Q.Policy.rule policy_b) (fresh (opened posts_a) (λ _. length cells.old)) (fresh (opened posts_b) (λ _. column_width posts_b (length bytes.old))) (calls result.0 turns_a.old) (calls result.1 turns_b.old) (replies result.0 turns_a.new answers_a.new) (replies result.1 turns_b.new answers_b.new) }
{
    let keeper_a = pool::open(posts_a, cells);
    let keeper_b = columns::open(posts_b, bytes);
    compare(
        policy_a, keeper_a, turns_a, answers_a, policy_b, keeper_b, turns_b, answers_b,
    )
}

// A station over a shelf over a quota over a pool, and one over a pool.
pub fn compare_stack_and_pool<P: Policy + Drop, Q: Policy + Drop>(
    policy_a: P,
    posts_a: u8,
    cells_a: &mut [u16],
    allowance: u32,
    turns_a: &mut [Turn],
    answers_a: &mut [Answer],
    policy_b: Q,
    posts_b: u8,
    cells_b: &mut [u16],
    turns_b: &mut [Turn],
    answers_b: &mut [Answer],
) -> (usize, usize)
    ensures count { (result.0 ≡ min (length turns_a.old) (length answers_a.old)) × (result.1 ≡ min (length turns_b.old) (length answers_b.old)) }
    ensures compared { Compared (P.Policy.rule policy_a) (Q.Policy.rule policy_b) (fresh (opened posts_a) (λ _. min (length cells_a.old) allowance)) (fresh (opened posts_b) (λ _. length cells_b.old)) (calls result.0 turns_a.old) (calls result.1 turns_b.old) (replies result.0 turns_a.new answers_a.new) (replies result.1 turns_b.new answers_b.new) }
{
    let below = pool::open(posts_a, cells_a);
    let limited = Quota::new(below, allowance);
    let keeper_a = Shelf::new(limited);
    let keeper_b = pool::open(posts_b, cells_b);
    compare(
        policy_a, keeper_a, turns_a, answers_a, policy_b, keeper_b, turns_b, answers_b,
    )
}
