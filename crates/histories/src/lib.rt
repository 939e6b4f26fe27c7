// The theorems on histories of tables. Each function carries one theorem, as what it ensures: it is there to be proved, not to be called.
#![tactic(auto)]

ghost use Rattle.histories.specs.Histories.{OneOutcome, OneOutcomeAfter, ReachComputed, Sameness};

// Of any two tables of one layout and one kind, whatever was asked of them and whatever their capacities and stores: every call was answered
// as its step says, equal handles are equal rules, a handle keeps its rule until a sweep frees it, the rule book tells the truth, and sheets
// of equal rules are equal bytes.
pub fn sameness()
    ensures { Sameness }
{}

// A table and a request have one outcome: whether the call is accepted, which refusal it meets, and what it replies unless it chooses a handle.
pub fn one_outcome()
    ensures { OneOutcome }
{}

// From one table, one request leaves the lent lists in one way, and layout, phase and capacity. Except where an accepted call answers a handle,
// every place after and all that the store answers after are one too.
pub fn one_outcome_after()
    ensures { OneOutcomeAfter }
{}

// What a sweep answers is computed from the table before it: on every table to which calls lead, the check of what is reached agrees with what
// is reached from 0, from 1 and from the held handles, and just as many places are in use and not reached as are counted.
pub fn reach_computed()
    ensures { ReachComputed }
{}
