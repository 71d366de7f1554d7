//! What follows for each run of a mirror.

ghost use Rattle.std.specs.Prelude.{◌≡◌, List, Some};
ghost use Rattle.mirror_block.specs.Rule.{Presence, both_present, mirrored};
ghost use Rattle.mirror_block.specs.Sides.{answers_given};
ghost use Rattle.mirrored_run.specs.Mirrors.{IsMirrorRun, mirror_blocks, mirror_ops};
ghost use Rattle.nook_data.specs.declared.mirror.MirrorAnswer.{MirrorAnswer};
ghost use Rattle.nook_data.specs.declared.scenario.Scenario.{Scenario};
ghost use Rattle.nook_data.specs.declared.steps.Event.{Event};

/// The answers of a mirror are those of the rule over the answers in the two journals, in the order of their calls. The
/// rule uses all of these.
pub fn the_answers_are_the_rules()
    ensures { (scenario : Scenario) (left right : List Event) (answers : List MirrorAnswer)
        → IsMirrorRun scenario left right answers
        → (p : Presence) × (mirrored (mirror_blocks scenario) both_present (mirror_ops scenario)
        (answers_given left) (answers_given right)
        ≡ Some (record { present = p; answers = answers })) }
{}
