//! The headline: everything that is promised of a part, as one law.

ghost use Rattle.nook_data.specs.Valid.{IsValidPart};
ghost use Rattle.nook_data.specs.declared.classes.Class.{Class};
ghost use Rattle.nook_data.specs.declared.scenario.PartSpec.{PartSpec};
ghost use Rattle.nook_data.specs.declared.steps.Event.{Event};
ghost use Rattle.nook_data.specs.declared.verdicts.Break.{Break};
ghost use Rattle.part_defs.specs.Runs.{IsRun};
ghost use Rattle.promise_defs.specs.Contract.{first_break};
ghost use Rattle.headline_laws.specs.Headline.{IsSafe, IsTransparent};
ghost use Rattle.std.specs.Prelude.{ℕ, List, None, Some, take, ◌-◌, ◌≡◌};

/// Whatever a part's driver executes, and in any order of its steps: each burst writes only where the driver may write,
/// no kernel object changes unless it is lent, each Collect leaves only the registration, and every recovery ends after
/// at most 11 stages and 192 bursts, of which the next may always be taken. While a call is open, a step may be taken.
/// A Stop gives the part up exactly if there were more failures before it than the limit, so at failure `limit + 1`.
///
/// As long as the class contract was kept and the part not given up, the applications saw one run of a device that never
/// fails, and the part agrees with it: also while Writes are open, each block of the medium holds the words last
/// acknowledged for it, or those of an open Write that covers it. When the part is given up, and after that, each call
/// is answered Gone, or as the static check says, and the medium stays as it was.
pub fn every_run_is_safe()
    ensures { (spec : PartSpec) (journal : List Event)
        → IsValidPart spec → IsRun spec journal → IsSafe spec journal }
{}

/// The events before the first break are the longest prefix of the journal that keeps the contract: the next event
/// breaks it. So a report of a break at event L promises the L - 1 events before it, whatever happens to the part.
/// A part that was given up runs no driver, so it cannot break a clause any more.
pub fn events_before_the_first_break_keep_the_contract()
    ensures kept { (class : Class) (size : ℕ) (events : List Event) (b : Break)
        → first_break class size events ≡ Some b
        → first_break class size (take (b.event - 1) events) ≡ None }
    ensures next { (class : Class) (size : ℕ) (events : List Event) (b : Break)
        → first_break class size events ≡ Some b
        → first_break class size (take b.event events) ≡ Some b }
    ensures transparent { (spec : PartSpec) (journal : List Event) (b : Break)
        → IsValidPart spec → IsRun spec journal
        → first_break spec.class spec.blocks journal ≡ Some b
        → IsTransparent spec (take (b.event - 1) journal) }
{}
