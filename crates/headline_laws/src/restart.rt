//! A restart is clean: what a driver begins with after a recovery, and what it may depend on.

ghost use Rattle.nook_data.specs.Valid.{IsValidPart};
ghost use Rattle.nook_data.specs.declared.scenario.PartSpec.{PartSpec};
ghost use Rattle.nook_data.specs.declared.steps.Event.{Event};
ghost use Rattle.machine_defs.specs.Devices.{ring_of};
ghost use Rattle.part_defs.specs.Runs.{IsRun, state_of};
ghost use Rattle.headline_laws.specs.Restart.{AreAlike, IsClean, IsRestart, Survive, is_load, is_renewing, is_reset};
ghost use Rattle.std.specs.Prelude.{List, [], ◌∷◌, ◌++◌, ◌≡◌, true};

/// After every Load of a run, that of the boot or that of a recovery, the domain is the one after the boot's Load,
/// except for the kernel objects, a disk's blocks and their counts of commands, and the frames in a link's ring. So
/// whatever the driver did before: text, data, stacks and buffers are the image and zeros, no context is Inside, the
/// driver holds nothing and is not registered, and the device's registers have the defaults. A Reset leaves no frame in
/// the ring, so those in it arrived later.
pub fn every_restart_is_clean()
    ensures load { (spec : PartSpec) (journal front back : List Event) (e : Event)
        → IsValidPart spec → IsRun spec journal → journal ≡ front ++ e ∷ back → is_load e ≡ true
        → IsClean spec (state_of spec (front ++ e ∷ [])).domain }
    ensures reset { (spec : PartSpec) (journal front back : List Event) (e : Event)
        → IsValidPart spec → IsRun spec journal → journal ≡ front ++ e ∷ back → is_reset e ≡ true
        → ring_of (state_of spec (front ++ e ∷ [])).domain.device ≡ [] }
{}

/// From a failure to the Load that follows it no event changes a kernel object, a block of a disk or a count of
/// commands. So what a restarted driver finds there is what the failure left.
pub fn medium_and_objects_survive_a_failure()
    ensures { (spec : PartSpec) (journal front back : List Event) (e : Event)
        → IsValidPart spec → IsRun spec journal → journal ≡ front ++ e ∷ back
        → is_renewing (state_of spec front).mode ≡ true
        → Survive (state_of spec front).domain (state_of spec (front ++ e ∷ [])).domain }
{}

/// What follows the Load of a recovery depends on nothing else: after two such runs that end alike, the events that may
/// follow one may follow the other, and lead to the same part.
pub fn what_follows_a_restart_is_determined()
    ensures { (spec : PartSpec) (a b more : List Event)
        → IsValidPart spec → IsRestart spec a → IsRestart spec b
        → AreAlike (state_of spec a) (state_of spec b)
        → IsRun spec (a ++ more)
        → IsRun spec (b ++ more) × (state_of spec (a ++ more) ≡ state_of spec (b ++ more)) }
{}
