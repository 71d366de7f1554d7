//! The recovery theorem: if a driver kept its class contract and its part was not given up, the applications see one
//! run of a device that never fails, no matter where the driver fails.

ghost use Rattle.part_laws.specs.Watch.{sees};
ghost use Rattle.promise_defs.specs.Ideal.{Ideal, IsClassRun};
ghost use Rattle.promise_defs.specs.Licence.{IsLicensed};
ghost use Rattle.part_defs.specs.Runs.{state_of};
ghost use Rattle.part_defs.specs.State.{PartState};
ghost use Rattle.part_defs.specs.Steps.{enabled, stepped};
ghost use Rattle.promise_defs.specs.Trace.{trace};
ghost use Rattle.nook_data.specs.declared.steps.Event.{Event};
ghost use Rattle.nook_data.specs.declared.limits.TheConstants.{CONTEXTS};
ghost use Rattle.nook_data.specs.declared.scenario.PartSpec.{PartSpec};
ghost use Rattle.nook_data.specs.declared.steps.Step.{Step};
ghost use Rattle.part_laws.specs.Facts.{Facts, is_dead};
ghost use Rattle.part_laws.specs.Recovery.{Agrees, Gone, HasFacts, IsKeptRun, ShowsDevice, StepKeeps};
ghost use Rattle.part_laws.specs.Views.{Past, view_of, watch_of};
ghost use Rattle.std.specs.Prelude.{◌≡◌, ◌⊎◌, List, None, false, length, true};

/// The visible trace is one run of the class's never-failing device, with the configuration last acknowledged: a plain
/// disk whose blocks may fail, a link that may lose frames, or a stream that may skip samples.
pub fn applications_see_one_run()
    ensures { (spec : PartSpec) (journal : List Event) → IsKeptRun spec journal
        → IsClassRun spec.class spec.blocks (trace journal) }
{}

/// After the trace the part agrees with the never-failing device. Its record is the device's configuration, and its
/// holder is that of the device's stream. If no Write is open, the medium is the plain disk's blocks. In Running, with
/// no Set Inside, the registers are the record.
pub fn part_agrees_with_the_device()
    ensures { (spec : PartSpec) (journal : List Event) (device : Ideal) → IsKeptRun spec journal
        → ShowsDevice spec journal device
        → Agrees (state_of spec journal) device }
{}

/// Losses and busy answers occur only around a failure, or if a ring or a queue was full. Each Done of a Send without
/// its frame or of a Play without all its samples, each Busy, and each Empty while a frame waits is given to an
/// invocation during recovery, or at Stop. Each IoError names a block that failed in that attempt. Each frame that
/// arrived was received, is still in a queue, a ring or the driver, or is counted as lost.
pub fn losses_are_licensed()
    ensures { (spec : PartSpec) (journal : List Event) → IsKeptRun spec journal
        → IsLicensed spec journal }
{}

/// The facts of the induction hold after every such journal. No two calls that were Inside conflict. A block of the
/// medium differs from the plain disk only if an open Write stored it. Record, holder, registers and frames are those
/// of the never-failing device. A call that must not be repeated has one attempt.
pub fn facts_hold()
    ensures { (spec : PartSpec) (journal : List Event) → IsKeptRun spec journal
        → HasFacts spec journal }
{}

/// If the facts hold of a part and its past, each step that breaks no clause keeps them or gives the part up.
pub fn each_step_keeps_the_facts()
    ensures { (p : PartState) (past : Past) (s : Step) → Facts (view_of p) past
        → length p.domain.contexts ≡ CONTEXTS
        → is_dead p.mode ≡ false → enabled p s ≡ true
        → (sees (watch_of (view_of p) past) (stepped p s).event).clause ≡ None
        → Gone (stepped p s).state ⊎ StepKeeps p past (stepped p s) }
{}
