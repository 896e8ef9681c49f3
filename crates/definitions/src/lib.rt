//! The definitions of the book stand in specs/; the functions here carry the theorems on them.
#![tactic(auto)]

ghost use Rattle.definitions.specs.Law.{LawOfRuns};
ghost use Rattle.definitions.specs.Matching.{OneFirstPair};
ghost use Rattle.definitions.specs.States.{State};
ghost use Rattle.definitions.specs.Theorems.{CallsDecide, CoverAgrees};
ghost use Rattle.definitions.specs.WorkedDays.{WorkedDays, WorkedStates};

/// The law of runs, over the definitions: for any register, any calendar and any list of calls.
pub fn law_of_runs_stands()
    ensures { LawOfRuns }
{}

/// Noon answers how many more agents are suspended, and leaves nobody notified; stop leaves no request of the security, and, where
/// what is left of requests was reserved, every line's registered shares as they were.
pub fn calls_decide_stands()
    ensures { CallsDecide }
{}

/// Whether an agent is short is one question, asked of a state and of what a ledger keeps.
pub fn cover_agrees_stands()
    ensures { (x : State) → CoverAgrees x }
{}

/// A state has one first pair at most.
pub fn one_first_pair_stands()
    ensures { (x : State) → OneFirstPair x }
{}

/// The definitions compute: lists of calls have exactly the answers that are due.
pub fn worked_days_stand()
    ensures { WorkedDays }
{}

/// What the calls make of a state with requests and a loan.
pub fn worked_states_stand()
    ensures { WorkedStates }
{}
