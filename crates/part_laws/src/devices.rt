//! A device keeps its class over bursts, steps and runs, and a part keeps its spec.

ghost use Rattle.machine_defs.specs.Burst.{burst};
ghost use Rattle.machine_defs.specs.Views.Ports.{class_of};
ghost use Rattle.part_defs.specs.Runs.{IsRun, state_of};
ghost use Rattle.part_defs.specs.State.{PartState};
ghost use Rattle.part_defs.specs.Steps.{stepped};
ghost use Rattle.machine_defs.specs.Execution.{Machine};
ghost use Rattle.nook_data.specs.declared.entries.Entry.{Entry};
ghost use Rattle.nook_data.specs.declared.steps.Event.{Event};
ghost use Rattle.nook_data.specs.declared.scenario.Fault.{Fault};
ghost use Rattle.nook_data.specs.declared.scenario.PartSpec.{PartSpec};
ghost use Rattle.nook_data.specs.declared.steps.Step.{Step};
ghost use Rattle.std.specs.Prelude.{List, ◌≡◌};

/// Whatever a driver and its faults do in a burst, the device keeps its class.
pub fn every_burst_keeps_the_class()
    ensures { (entries : List Entry) (faults : List Fault) (m : Machine)
        → class_of (burst entries faults m).machine.device ≡ class_of m.device }
{}

/// Each step keeps the part's spec, and a device of the spec's class remains of that class.
pub fn each_step_keeps_the_class()
    ensures device { (p : PartState) (s : Step) → class_of p.domain.device ≡ p.spec.class
        → class_of (stepped p s).state.domain.device ≡ (stepped p s).state.spec.class }
    ensures spec { (p : PartState) (s : Step) → (stepped p s).state.spec ≡ p.spec }
{}

/// After every run of a spec the device has the spec's class, and the part has that spec.
pub fn every_run_keeps_the_class()
    ensures device { (spec : PartSpec) (journal : List Event) → IsRun spec journal
        → class_of (state_of spec journal).domain.device ≡ spec.class }
    ensures spec { (spec : PartSpec) (journal : List Event) → IsRun spec journal
        → (state_of spec journal).spec ≡ spec }
{}
