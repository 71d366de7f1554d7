//! The subcommands that the program knows, and their arguments.

ghost use Rattle.std.specs.Prelude.{◌≡◌, ℕ, ◌≤◌, [], ◌∷◌, codes, decimal, map, string_bytes, IfNone, IfSome};
ghost use Rattle.command_forms.specs.Forms.{AskAlone, IsForm, IsNoForm, form_for, is_plain, within};

/// What the program is asked to do.
#[derive(Clone, Copy)]
pub enum Form {
    /// `run`: read a scenario, simulate it, write the report.
    Run,
    /// `run threads`: read a scenario, run each of its threads as a real thread, write the report.
    RunThreads,
    /// `asm`: read an assembler text, write its image.
    Asm,
    /// `dis`: read an image, write its assembler text.
    Dis,
    /// `gen` N: simulate the generated scenario of a number from 1 to 256, write a summary line.
    Gen { number: u32 },
    /// `gen` N `scenario`: write that generated scenario.
    GenScenario { number: u32 },
    /// `audit`: read a scenario and a printed report, write whether every line of the report fits.
    Audit,
    /// `campaign`: read a scenario and faults, simulate it once for each fault, write a table of the results.
    Campaign,
    /// `mirror`: read a scenario of two disks, keep one disk on both, write the report.
    Mirror,
    /// `list`: read an assembler text, write its words, labels and entries with their addresses and lines.
    List,
    /// `trace` P B: read a scenario, simulate it up to burst B of part P, write that burst instruction by instruction.
    Trace { part: u32, burst: u32 },
    /// `guard`: read a scenario, simulate it with each driver stopped before it breaks its contract, write the traps
    /// and the report.
    Guard,
    /// `guard scenario`: write the scenario with these traps among its faults.
    GuardScenario,
    /// `explore`: read a scenario, follow every order of its steps, write a row for each outcome.
    Explore,
    /// `--help`: write a line for each subcommand and for each status.
    Help,
    /// `--version`: write the program's version.
    Version,
}

/// A subcommand that waits for a turn at a part. Its callers are threads, or the two sides of a mirror.
#[derive(Clone, Copy)]
pub enum WaitingForm {
    /// `run threads`.
    RunThreads,
    /// `mirror`.
    Mirror,
}

// The words that more than one subcommand has.
const GEN: &str = "gen";

const GUARD: &str = "guard";

const RUN: &str = "run";

const SCENARIO: &str = "scenario";

/// The greatest number of a generated scenario.
const MOST_GENERATED: u32 = 256;

/// The greatest number of a part, counted from 0.
const LAST_PART: u32 = 7;

/// The subcommand that the arguments name; `None` exactly if they name none.
pub fn form_of(words: &[String]) -> Option<Form>
    ensures found { IfSome result (IsForm (map string_bytes words.now)) }
    ensures none { IfNone result (IsNoForm (map string_bytes words.now)) }
{
    match words {
        [word] => form_of_word(word.as_str()),
        [word, second] => form_of_two(word.as_str(), second.as_str()),
        [word, second, third] => form_of_three(word.as_str(), second.as_str(), third.as_str()),
        _ => None,
    }
}

/// The waiting subcommand that the arguments name; `None` exactly if they ask for nothing that waits.
pub fn waiting_form_of(words: &[String]) -> Option<WaitingForm>
    ensures found { IfSome result
        (λ waiting. IsForm (map string_bytes words.now) (form_for waiting)) }
    ensures none { IfNone result (AskAlone (map string_bytes words.now)) }
{
    match form_of(words) {
        Some(Form::RunThreads) => Some(WaitingForm::RunThreads),
        Some(Form::Mirror) => Some(WaitingForm::Mirror),
        _ => None,
    }
}

/// The subcommand of one argument.
fn form_of_word(word: &str) -> Option<Form>
    ensures found { IfSome result (IsForm (word.now ∷ [])) }
    ensures none { IfNone result (IsNoForm (word.now ∷ [])) }
{
    if word == RUN {
        Some(Form::Run)
    } else if word == "asm" {
        Some(Form::Asm)
    } else if word == "dis" {
        Some(Form::Dis)
    } else if word == "audit" {
        Some(Form::Audit)
    } else if word == "campaign" {
        Some(Form::Campaign)
    } else if word == "mirror" {
        Some(Form::Mirror)
    } else if word == "list" {
        Some(Form::List)
    } else if word == GUARD {
        Some(Form::Guard)
    } else if word == "explore" {
        Some(Form::Explore)
    } else if word == "--help" {
        Some(Form::Help)
    } else if word == "--version" {
        Some(Form::Version)
    } else {
        None
    }
}

/// The subcommand of two arguments.
fn form_of_two(word: &str, second: &str) -> Option<Form>
    ensures found { IfSome result (IsForm (word.now ∷ second.now ∷ [])) }
    ensures none { IfNone result (IsNoForm (word.now ∷ second.now ∷ [])) }
{
    if word == RUN {
        threads_form(second)
    } else if word == GUARD {
        guarded_form(second)
    } else if word == GEN {
        generated_form(second)
    } else {
        None
    }
}

/// The subcommand of `run` and another argument.
fn threads_form(second: &str) -> Option<Form>
    ensures found { IfSome result (IsForm (codes "run" ∷ second.now ∷ [])) }
    ensures none { IfNone result (IsNoForm (codes "run" ∷ second.now ∷ [])) }
{
    if second == "threads" {
        Some(Form::RunThreads)
    } else {
        None
    }
}

/// The subcommand of `guard` and another argument.
fn guarded_form(second: &str) -> Option<Form>
    ensures found { IfSome result (IsForm (codes "guard" ∷ second.now ∷ [])) }
    ensures none { IfNone result (IsNoForm (codes "guard" ∷ second.now ∷ [])) }
{
    if second == SCENARIO {
        Some(Form::GuardScenario)
    } else {
        None
    }
}

/// The subcommand of three arguments.
fn form_of_three(word: &str, second: &str, third: &str) -> Option<Form>
    ensures found { IfSome result (IsForm (word.now ∷ second.now ∷ third.now ∷ [])) }
    ensures none { IfNone result (IsNoForm (word.now ∷ second.now ∷ third.now ∷ [])) }
{
    if word == GEN && third == SCENARIO {
        scenario_form(second)
    } else if word == "trace" {
        trace_form(second, third)
    } else {
        None
    }
}

/// The subcommand of `trace`, a part and a burst.
fn trace_form(part: &str, burst: &str) -> Option<Form>
    ensures found { IfSome result (IsForm (codes "trace" ∷ part.now ∷ burst.now ∷ [])) }
    ensures none { IfNone result (IsNoForm (codes "trace" ∷ part.now ∷ burst.now ∷ [])) }
{
    let part = part_of(part)?;
    let burst = number_up_to(u32::MAX, burst)?;
    Some(Form::Trace { part, burst })
}

/// The number of a part, from 0 to 7 in decimal, without a sign or a leading zero.
fn part_of(text: &str) -> Option<u32>
    ensures found { IfSome result (λ n. (text.now ≡ decimal n) × (n ≤ 7)) }
    ensures none { IfNone result ((n : ℕ) → text.now ≡ decimal n → n ≤ 7 → ⊥) }
{
    if text == "0" {
        Some(0)
    } else {
        number_up_to(LAST_PART, text)
    }
}

/// The subcommand of `gen` and a number.
fn generated_form(number: &str) -> Option<Form>
    ensures found { IfSome result (IsForm (codes "gen" ∷ number.now ∷ [])) }
    ensures none { IfNone result (IsNoForm (codes "gen" ∷ number.now ∷ [])) }
{
    match number_up_to(MOST_GENERATED, number) {
        Some(number) => Some(Form::Gen { number }),
        None => None,
    }
}

/// The subcommand of `gen`, a number and `scenario`.
fn scenario_form(number: &str) -> Option<Form>
    ensures found { IfSome result (IsForm (codes "gen" ∷ number.now ∷ codes "scenario" ∷ [])) }
    ensures none { IfNone result (IsNoForm (codes "gen" ∷ number.now ∷ codes "scenario" ∷ [])) }
{
    match number_up_to(MOST_GENERATED, number) {
        Some(number) => Some(Form::GenScenario { number }),
        None => None,
    }
}

/// A number from 1 to `most` in decimal, without a sign or a leading zero.
fn number_up_to(most: u32, text: &str) -> Option<u32>
    ensures found { IfSome result (λ n. (text.now ≡ decimal n) × (1 ≤ n) × (n ≤ most)) }
    ensures none { IfNone result ((n : ℕ) → text.now ≡ decimal n → 1 ≤ n → n ≤ most → ⊥) }
{
    match text.parse::<u32>() {
        Ok(number) => within(most, number, is_plain(text)),
        Err(_) => None,
    }
}

/// A number from 1 to `most` whose text is plain.
fn within(most: u32, number: u32, plain: bool) -> Option<u32>
    ensures { result ≡ within most number plain }
{
    if 1 <= number && number <= most && plain {
        Some(number)
    } else {
        None
    }
}

/// Whether the text begins with neither a sign nor a zero.
fn is_plain(text: &str) -> bool
    ensures { result ≡ is_plain text.now }
{
    match text.as_bytes().first() {
        Some(byte) => *byte != b'+' && *byte != b'0',
        None => false,
    }
}
