//! Laws of what the program answers: theorems over the definitions alone.
//!
//! Each law is the contract of a public function with an empty body: it holds for all arguments.
#![tactic(auto)]

ghost use Rattle.std.specs.Prelude.{◌≡◌, ℕ, true, List, None, Option, Some};
ghost use Rattle.answer_laws.specs.Rows.{HaveSameRows, HasFollowedAll};
ghost use Rattle.command_forms.specs.Forms.{AskOneAnswer, Asks, IsForm, has_one_answer, is_alone};
ghost use Rattle.command_forms.specs.declared.words.Form.{Form};
ghost use Rattle.command_forms.specs.declared.words.Form.TheVariants.{Explore, Mirror, RunThreads};
ghost use Rattle.explore_defs.specs.Explored.{IsExplored};
ghost use Rattle.nook_data.specs.Valid.{IsValidScenario};
ghost use Rattle.nook_data.specs.declared.scenario.Scenario.{Scenario};
ghost use Rattle.nook_io.specs.Listening.{Listening};
ghost use Rattle.nooks.specs.Answers.{Answers, IsReported};
ghost use Rattle.nooks.specs.Endings.{AnswersBytes};
ghost use Rattle.nooks.specs.Streams.{Input};
ghost use Rattle.nooks.specs.declared.program.Status.{Status};
ghost use Rattle.order_defs.specs.OutOfOrder.{Finds};
ghost use Rattle.run_laws.specs.Audit.{own_listeners};

/// Every subcommand that never waits is a function, except `explore`: for the same input and the same listeners it has
/// at most one answer, that is, one text and one status. The same holds for arguments over the same bytes, because
/// arguments ask for at most one subcommand.
pub fn every_answer_is_one()
    ensures forms { (asked : Form) (input : Input) (hearing : List Listening) (text other : List ℕ)
        (status end : Status) → has_one_answer asked ≡ true
        → Answers (Some asked) input hearing text status
        → Answers (Some asked) input hearing other end → (text ≡ other) × (status ≡ end) }
    ensures words { (words : List (List ℕ)) (hearing : List Listening) (bytes text other : List ℕ)
        (status end : Status) → AskOneAnswer words → AnswersBytes words hearing bytes text status
        → AnswersBytes words hearing bytes other end → (text ≡ other) × (status ≡ end) }
    ensures alone { (asked : Form) → is_alone asked ≡ true → (asked ≡ Explore → ⊥)
        → has_one_answer asked ≡ true }
{}

/// If two answers of `explore` to one scenario cover all orders, they differ only in the number of states: rows and
/// status are the same. The number depends on which states a program holds as one.
pub fn every_exploration_has_the_same_rows()
    ensures whole { (scenario : Scenario) (text other : List ℕ) (status end : ℕ)
        (one : IsExplored scenario text status) (two : IsExplored scenario other end)
        → one.cut ≡ None → two.cut ≡ None
        → HaveSameRows text other × (status ≡ end) }
    ensures answers { (input : Input) (hearing : List Listening) (text other : List ℕ)
        (status end : Status)
        → HasFollowedAll status → HasFollowedAll end
        → Answers (Some Explore) input hearing text status
        → Answers (Some Explore) input hearing other end
        → HaveSameRows text other × (status ≡ end) }
{}

/// Arguments have an answer for any bytes, unless they ask for `mirror`: whatever the input, there is a text with a
/// status that the program may give.
pub fn every_form_has_an_answer()
    ensures { (words : List (List ℕ)) (asked : Option Form) (hearing : List Listening)
        (bytes : List ℕ)
        → Asks words asked → (IsForm words Mirror → ⊥)
        → (text : List ℕ) × ((status : Status) × AnswersBytes words hearing bytes text status) }
{}

/// An audit finds nothing exactly if the text is a report that `run threads` may write of the scenario, with the
/// program's own listeners.
pub fn an_audit_passes_threaded_reports()
    ensures passed { (scenario : Scenario) (report : List ℕ) → IsValidScenario scenario
        → Finds scenario report None
        → (status : Status) × IsReported RunThreads scenario own_listeners report status }
    ensures reports { (scenario : Scenario) (report : List ℕ) (status : Status)
        → IsValidScenario scenario
        → IsReported RunThreads scenario own_listeners report status → Finds scenario report None }
{}
