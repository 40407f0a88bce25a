// The seven-event shift, a worked example, as a theorem about the definitions.
ghost use Rattle.runs.specs.Shift.{SevenEventShift};

// Each of the seven records, the questions after them and four refusals are answered as the example has it.
#[tactic(auto, using(crate::proofs::SevenEvents::seven_event_shift))]
pub fn seven_event_shift()
    ensures { SevenEventShift }
{}
