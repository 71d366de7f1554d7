//! The clauses of the contract, and the losses of a journal.

ghost use Rattle.nook_data.specs.Clauses.{all_clauses};
ghost use Rattle.promise_defs.specs.Losses.{losses};
ghost use Rattle.std.specs.List.{AllByRecursion};
ghost use Rattle.std.specs.Prelude.{◌≡◌, map};
ghost use Rattle.worked_rows.specs.Clauses.{Case, IsJudged, clause_cases, further_cases, lossy, lost_there};

/// For each clause of the contract, in order, one event breaks it, and an alternative to that event breaks none.
#[tactic(auto, using(crate::proofs::ClauseCases::every_clause, crate::proofs::ClauseCases::clauses_judged))]
pub fn each_clause_has_its_case()
    ensures each { map (λ (c : Case). c.clause) clause_cases ≡ all_clauses }
    ensures judged { AllByRecursion IsJudged clause_cases }
{}

/// The same for a replay, a Write after Stop, two breaks in one burst, and a frame handed up in the attempt.
#[tactic(auto, using(crate::proofs::ClauseCases::further_judged))]
pub fn further_clauses_are_judged()
    ensures { AllByRecursion IsJudged further_cases }
{}

/// A journal with almost every kind of loss has exactly these losses.
#[tactic(auto, using(crate::proofs::ClauseCases::losses_reported))]
pub fn losses_are_counted()
    ensures { losses lossy ≡ lost_there }
{}
