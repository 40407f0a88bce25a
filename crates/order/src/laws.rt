// The theorems on happened-before, for every history that a station can have.
// Each function has a theorem for its contract, so that the check asks for the proof.
ghost use Rattle.order.specs.Laws.{TestsTell, VectorCounts, NumberDecides, ChainsJoin, NoCycle, PredecessorsHeld, HistoriesAgree};

// The numbers by which records are refused mean what the records say.
pub fn tests_tell()
    ensures { TestsTell }
{}

// An entry of the vector counts the events that are the event itself or happened before it.
pub fn vector_counts()
    ensures { VectorCounts }
{}

// Whether an event reaches another is decided by one number and one entry.
pub fn number_decides()
    ensures { NumberDecides }
{}

// Happened-before is transitive, and never leads from an event to itself.
pub fn chains_order()
    ensures join { ChainsJoin }
    ensures acyclic { NoCycle }
{}

pub fn predecessors_held()
    ensures { PredecessorsHeld }
{}

// Stations that took equal records order their events alike.
pub fn histories_agree()
    ensures { HistoriesAgree }
{}
