// What the cluster rule made of an event.
ghost use Rattle.std.specs.Prelude.{Some};
ghost use Rattle.cluster.specs.Outcomes.{word};

use std::fmt;

#[derive(Clone, Copy, PartialEq, Eq, Debug)]
pub enum Outcome {
    // Stamped within its post's cluster.
    Plain,
    // A receive that merged two clusters.
    Merged,
    // A receive from another cluster, without a merge.
    Across,
}

impl fmt::Display for Outcome {
    ghost output = { λ outcome. Some (word outcome) };

    fn fmt<W: fmt::Write>(&self, f: &mut fmt::Formatter<W>) -> fmt::Result {
        f.write_str(match self {
            Outcome::Plain => "plain",
            Outcome::Merged => "merged",
            Outcome::Across => "across",
        })
    }
}
