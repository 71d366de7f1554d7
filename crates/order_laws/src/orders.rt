//! The orders in which the events of several journals can be taken.

ghost use Rattle.nook_data.specs.Valid.{IsValidScenario};
ghost use Rattle.nook_data.specs.declared.calls.Answer.{Answer};
ghost use Rattle.nook_data.specs.declared.calls.Op.{Op};
ghost use Rattle.nook_data.specs.declared.scenario.PartSpec.{PartSpec};
ghost use Rattle.nook_data.specs.declared.scenario.Scenario.{Scenario};
ghost use Rattle.nook_data.specs.declared.scenario.ThreadSpec.{ThreadSpec};
ghost use Rattle.nook_data.specs.declared.steps.Event.{Event};
ghost use Rattle.nook_data.specs.declared.steps.Event.TheVariants as event;
ghost use Rattle.order_defs.specs.OneClock.{AreOneRun};
ghost use Rattle.order_defs.specs.Taking.{IsAllTaken, IsStuck, IsTimely, Leads, Taking, opening_taking};
ghost use Rattle.run_defs.specs.Simulation.{ThreadState};
ghost use Rattle.run_laws.specs.Fitting.{AllFit};
ghost use Rattle.std.specs.Prelude.{◌<◌, ◌≡◌, [], ◌∷◌, length, slice_get, slice_index_or, List, None, Option, Some, ℕ};
ghost use Rattle.threaded_run.specs.Others.{HaveNoOthers};

/// Journals that have one clock, and no invocations other than the scripts', can be taken event by event until nothing
/// is left: the event with the least stamp may always be taken.
pub fn one_clock_gives_an_order()
    ensures { (threads : List ThreadSpec) (parts : List PartSpec) (journals : List (List Event))
        → HaveNoOthers threads 0 parts journals → AreOneRun threads journals
        → (order : List ℕ) × ((end : Taking)
        × (Leads (opening_taking threads journals) order end × IsAllTaken end)) }
{}

/// Journals that can be taken event by event until nothing is left have one clock: the stamp of an event is the number
/// of events taken up to it.
pub fn an_order_gives_one_clock()
    ensures { (threads : List ThreadSpec) (journals : List (List Event)) (order : List ℕ)
        (end : Taking)
        → Leads (opening_taking threads journals) order end → IsAllTaken end
        → AreOneRun threads journals }
{}

/// Events are taken one by one, an invocation if it is its thread's next and every other event at once. When no event
/// may be taken any more, the same events were taken, whatever was taken first.
pub fn what_is_taken_in_the_end_is_the_same()
    ensures { (order other : List ℕ) (s a b : Taking) → Leads s order a → IsStuck a
        → Leads s other b → IsStuck b
        → a ≡ b }
{}

/// If journals have one clock, and no invocations other than the scripts', everything is taken in the end, whatever is
/// taken first. So an auditor finds out whether journals have one clock by taking what it can.
pub fn of_one_run_everything_is_taken()
    ensures { (threads : List ThreadSpec) (parts : List PartSpec) (journals : List (List Event))
        (order : List ℕ)
        (end : Taking) → HaveNoOthers threads 0 parts journals → AreOneRun threads journals
        → Leads (opening_taking threads journals) order end → IsStuck end → IsAllTaken end }
{}

/// In journals that fit a scenario, an invocation may be taken if its thread has no open operation and its part is that
/// of the thread's next operation: it is then that operation. So an auditor need not compare operations.
pub fn where_journals_fit_the_part_decides()
    ensures { (threads : List ThreadSpec) (parts : List PartSpec) (journals : List (List Event))
        (order : List ℕ)
        (s : Taking) (part call thread : ℕ) (o op : Op) (a : Option Answer) (rest : List Event)
        (t : ThreadState)
        (more : List (ℕ × Op)) → AllFit threads 0 parts journals
        → Leads (opening_taking threads journals) order s
        → part < length journals
        → slice_get s.left part ≡ Some (event.Invoke call thread o a ∷ rest)
        → slice_get s.threads thread ≡ Some t → t.waiting ≡ None → t.rest ≡ (part, op) ∷ more
        → IsTimely s.threads part (event.Invoke call thread o a) }
{}

/// If nothing is left of journals that fit a valid scenario, each operation was invoked and answered, and the journals
/// have one clock. So an auditor that has taken every event need not check what the threads have left.
pub fn where_journals_fit_nothing_left_is_all_taken()
    ensures taken { (scenario : Scenario) (journals : List (List Event)) (order : List ℕ)
        (end : Taking)
        → IsValidScenario scenario → AllFit scenario.threads 0 scenario.parts journals
        → Leads (opening_taking scenario.threads journals) order end
        → ((part : ℕ) → slice_index_or end.left part [] ≡ []) → IsAllTaken end }
    ensures clock { (scenario : Scenario) (journals : List (List Event)) (order : List ℕ)
        (end : Taking)
        → IsValidScenario scenario → AllFit scenario.threads 0 scenario.parts journals
        → Leads (opening_taking scenario.threads journals) order end
        → ((part : ℕ) → slice_index_or end.left part [] ≡ [])
        → AreOneRun scenario.threads journals }
{}
