//! The law of arguments.

ghost use Rattle.std.specs.Prelude.{◌≡◌, List, ℕ};
ghost use Rattle.command_forms.specs.Forms.{IsForm};
ghost use Rattle.command_forms.specs.declared.words.Form.{Form};

/// Arguments name at most one subcommand.
pub fn words_are_of_one_form()
    ensures { (words : List (List ℕ)) (one other : Form) → IsForm words one → IsForm words other
        → one ≡ other }
{}
