//! Laws of steps and of journals that are runs: what every part keeps, isolation and collection.

ghost use Rattle.promise_defs.specs.Isolation.{IsIsolated};
ghost use Rattle.part_defs.specs.Runs.{IsRun, event_of, state_after, state_of, step_of};
ghost use Rattle.part_defs.specs.Views.CallLogs.{answered_at};
ghost use Rattle.part_defs.specs.Steps.{enabled, opening, stepped};
ghost use Rattle.part_defs.specs.State.{PartState};
ghost use Rattle.nook_data.specs.Valid.{IsValidPart};
ghost use Rattle.nook_data.specs.declared.steps.Event.{Event};
ghost use Rattle.nook_data.specs.declared.scenario.PartSpec.{PartSpec};
ghost use Rattle.nook_data.specs.declared.steps.Step.{Step};
ghost use Rattle.part_laws.specs.Answered.{is_answered};
ghost use Rattle.part_laws.specs.Collection.{IsCollecting};
ghost use Rattle.part_laws.specs.Determined.{events_made, state_made};
ghost use Rattle.part_laws.specs.Fit.{IsFit, IsFitSpec};
ghost use Rattle.std.specs.Prelude.{ℕ, List, [], ◌∷◌, ◌++◌, is_some, map, ◌≡◌, true};

/// Each step that may be taken keeps the invariant of parts. Memory has 8,192 words, and there are 17 contexts. The
/// entries are in order and lie in the heap. Open calls passed the static check. Object 0 is the record and the count
/// of failures.
pub fn each_step_fits()
    ensures { (p : PartState) (s : Step) → IsFit p → enabled p s ≡ true
        → IsFit (stepped p s).state }
{}

/// A part whose image fits has this invariant when it opens, and after every journal that is a run.
pub fn every_run_fits()
    ensures { (spec : PartSpec) (journal : List Event) → IsFitSpec spec → IsRun spec journal
        → IsFit (state_of spec journal) }
{}

/// No driver changes a word that it may not write, nor a kernel object that is not lent to it. In a run each burst
/// changes only words that `may_write` allows, and text words that a code fault of that burst names. An object 1 to 12
/// changes only by a served give_back of that object while it is borrowed, and then takes the words moved. Object 0
/// changes only if a Set is answered Done or an event carries a failure; it is always the record and the count of
/// failures.
pub fn every_run_is_isolated()
    ensures { (spec : PartSpec) (journal : List Event) → IsFitSpec spec → IsRun spec journal
        → IsIsolated spec journal }
{}

/// Each Collect of a run leaves only the registration, and its event lists all other entries in order: heap entries by
/// start, borrows by object, buffers by context.
pub fn every_collect_leaves_the_registration()
    ensures { (spec : PartSpec) (journal : List Event) → IsFitSpec spec → IsRun spec journal
        → IsCollecting spec journal }
{}

/// A run is determined by its steps: its journal is the events that they make, and it ends in the part that they lead
/// to. So two journals with the same steps are equal and end in the same part.
pub fn every_run_is_determined_by_its_steps()
    ensures made { (spec : PartSpec) (journal : List Event) → IsRun spec journal
        → (journal ≡ events_made (opening spec) (map step_of journal))
        × (state_of spec journal ≡ state_made (opening spec) (map step_of journal)) }
    ensures same { (spec : PartSpec) (a b : List Event) → IsRun spec a → IsRun spec b
        → map step_of a ≡ map step_of b
        → (a ≡ b) × (state_of spec a ≡ state_of spec b) }
{}

/// An event names the step that makes it, and any step that may be taken continues a run.
pub fn every_run_goes_on_by_an_enabled_step()
    ensures named { (p : PartState) (s : Step) → step_of (event_of p s) ≡ s }
    ensures more { (spec : PartSpec) (journal : List Event) (s : Step) → IsRun spec journal
        → enabled (state_of spec journal) s ≡ true
        → IsRun spec (journal ++ event_of (state_of spec journal) s ∷ []) }
    ensures state { (spec : PartSpec) (journal : List Event) (s : Step)
        → state_of spec (journal ++ event_of (state_of spec journal) s ∷ [])
        ≡ state_after (state_of spec journal) s }
{}

/// Every valid part has what the laws require of its image.
pub fn every_valid_part_fits()
    ensures { (spec : PartSpec) → IsValidPart spec → IsFitSpec spec }
{}

/// After every run an event has answered a call number exactly if the number was given and the call is no longer open.
pub fn every_run_answers_each_call_that_is_not_open()
    ensures { (spec : PartSpec) (journal : List Event) → IsFitSpec spec → IsRun spec journal
        → (call : ℕ)
        → is_some (answered_at journal call) ≡ is_answered (state_of spec journal).log call }
{}
