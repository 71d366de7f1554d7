//! The laws of traces.

ghost use Rattle.std.specs.Prelude.{◌≡◌, List};
ghost use Rattle.machine_defs.specs.Burst.{burst};
ghost use Rattle.machine_defs.specs.Execution.{Machine};
ghost use Rattle.nook_data.specs.declared.entries.Entry.{Entry};
ghost use Rattle.nook_data.specs.declared.scenario.Fault.{Fault};
ghost use Rattle.turn_trace.specs.Bursts.{burst_trace};
ghost use Rattle.turn_trace.specs.Effects.{after_steps, words_of};
ghost use Rattle.turn_trace.specs.Retelling.{Retells};

/// For any machine and faults, a trace matches the burst that happens: it has the burst's number of instructions, its
/// acts, its end and its final machine; and it has each fault once.
pub fn every_trace_reports_its_burst()
    ensures { (entries : List Entry) (faults : List Fault) (m : Machine)
        → Retells faults (burst_trace entries faults m) (burst entries faults m) }
{}

/// What the lines of a trace show is all that a burst does to registers and memory: the words that they show for
/// registers and addresses, put in order into those that the burst finds, make those that it leaves. A poke or a code
/// fault that is refused puts nothing.
pub fn the_shown_effects_make_what_the_burst_leaves()
    ensures { (entries : List Entry) (faults : List Fault) (m : Machine)
        → after_steps entries (burst_trace entries faults m).steps (words_of m)
        ≡ words_of (burst entries faults m).machine }
{}
