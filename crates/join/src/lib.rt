// Joining: one operation with its law, and a running join over any type that has it.
#![tactic(auto)]

ghost use Rattle.std.specs.Prelude.{◌≡◌};
ghost use Rattle.join.specs.JoinsLemmas.{vectors_associative, vectors_commutative, vectors_idempotent, sets_associative, sets_commutative, sets_idempotent};
ghost use Rattle.join.specs.Folds.{OrderFree};
ghost use Rattle.join.specs.Joins.{larger_vector, union_set};

use order::posts::PostSet;
use std::array;
use vector::Vector;

pub mod vector;

// Two values make one. Whatever the order and the grouping, and however often a value comes, the result is the same.
pub trait Join: Sized {
    ghost join: { Self → Self → Self };

    fn join(self, other: Self) -> Self
        ensures { result ≡ join self other };

    ghost associative: { (x y z : Self) → join (join x y) z ≡ join x (join y z) };

    ghost commutative: { (x y : Self) → join x y ≡ join y x };

    ghost idempotent: { (x : Self) → join x x ≡ x };
}

// The larger entry for each post.
impl Join for Vector {
    ghost join = { larger_vector };

    ghost associative = { vectors_associative };

    ghost commutative = { vectors_commutative };

    ghost idempotent = { vectors_idempotent };

    fn join(self, other: Vector) -> Vector {
        Vector {
            entries: array::from_fn(|post| self.entries[post].max(other.entries[post])),
        }
    }
}

// The posts of either set.
impl Join for PostSet {
    ghost join = { union_set };

    ghost associative = { sets_associative };

    ghost commutative = { sets_commutative };

    ghost idempotent = { sets_idempotent };

    fn join(self, other: PostSet) -> PostSet {
        self.union(other)
    }
}

// A value to which others are joined one after the other.
#[derive(Clone, Copy, Drop)]
pub struct Running<J> {
    value: J,
}

impl<J: Join + Copy> Running<J> {
    pub fn new(value: J) -> Running<J>
        ensures { result.value ≡ value }
    {
        Running { value }
    }

    pub fn add(&mut self, value: J)
        ensures { self.new.value ≡ J.join self.old.value value }
    {
        self.value = self.value.join(value);
    }

    pub fn value(&self) -> J
        ensures { result ≡ self.now.value }
    {
        self.value
    }
}

// The order and the repeats of what is joined make no difference.
pub fn order_free<J: Join>()
    ensures { OrderFree J.join }
{}
