// The definitions of verification and of judging, which crates prove their code equal to. There is no code here.
#![tactic(auto)]

ghost use Rattle.rules.specs.Told.{Told};
ghost use Rattle.rules.specs.Joined.{Joined};
ghost use Rattle.rules.specs.AnyOrder.{AnyOrder};
ghost use Rattle.rules.specs.Converted.{RecordsConverted};
ghost use Rattle.rules.specs.Fired.{RulesFired};
ghost use Rattle.rules.specs.Cleared.{Cleared};
ghost use Rattle.rules.specs.Forced.{Forced};

// That an answer's number and bytes tell it, as a promise: without its proof this crate is not proved, nor any that uses it.
pub fn answers_told()
    ensures { Told }
{}

// Likewise ticket U10's statement on records joined.
pub fn records_joined()
    ensures { Joined }
{}

// Likewise ticket U9's statement on the order of a list's entries.
pub fn any_order()
    ensures { AnyOrder }
{}

// Likewise ticket U5's statement on verifying and judging converted records.
pub fn records_converted()
    ensures { RecordsConverted }
{}

// Likewise ticket U2's statement on the rows of a judgement.
pub fn rules_fired()
    ensures { RulesFired }
{}

// Likewise ticket U13's statement on the point whose mark would clear a TransInvalid one.
pub fn points_cleared()
    ensures { Cleared }
{}

// Likewise ticket U11's statement on what the network can force.
pub fn network_forces()
    ensures { Forced }
{}
