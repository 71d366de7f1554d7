//! Bursts.

ghost use Rattle.std.specs.Prelude.{◌≡◌, ◌<◌, []};
ghost use Rattle.part_defs.specs.Domain.{attempt_bursts, domain_burst};

use super::Domain;
use crate::reach::Reach;
use driver_isa::{BurstDone, run_burst};
use nook_data::journal::ActLog;
use nook_data::limits::{CONTEXTS, MOST_BURSTS};
use nook_data::machine::{BurstEnd, Context};
use nook_data::scenario::Fault;

impl Domain {
    /// Runs one burst of a context that is Inside, up to its crossing; it counts for the attempt. `faults` are those
    /// of this burst in rising order of `after`; `acts` is empty, with its full room. The context is at most 16, and
    /// its attempt has had fewer than 32 bursts. A free context does nothing. It takes no memory.
    #[tactic(auto, unfolding(part_defs::specs::Domain::domain_burst), using(machine_defs::proofs::BurstClasses::burst_keeps_class))]
    pub fn burst(&mut self, context: u8, faults: &[Fault], acts: &mut ActLog) -> BurstDone
        requires context { context < CONTEXTS }
        requires few { attempt_bursts context self.old.state < MOST_BURSTS }
        requires acts { acts.old ≡ [] }
        ensures burst { domain_burst context faults.now self.old.state ≡ record {
          domain = self.new.state;
          count = result.count;
          ending = result.end;
          acts = acts.new;
        } }
        ensures same { self.new ≡ record self.old { state = self.new.state } }
    {
        let Some(inside) = self.contexts[context as usize] else {
            return BurstDone {
                count: 0,
                end: BurstEnd::Pause,
            };
        };
        let mut cpu = inside.cpu;
        let mut reach = Reach {
            pages: &mut self.pages,
            tracker: &self.tracker,
            device: &mut self.device,
        };
        let done = run_burst(&mut cpu, &mut reach, faults, acts);
        self.contexts[context as usize] = Some(Context {
            cpu,
            bursts: inside.bursts + 1,
        });
        done
    }
}
