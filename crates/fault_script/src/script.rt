//! A list of faults in the order in which they strike.

ghost use Rattle.std.specs.Prelude.{◌≡◌, ℕ, IfOk};
ghost use Rattle.machine_defs.specs.BurstFaults.{faults_of_burst};

use nook_data::lists::{TryCopy, copy_all};
use nook_data::memory::NoMemory;
use nook_data::scenario::{Fault, Faults};
use std::alloc::Global;
use std::marker::Model;

/// The faults of a part by burst and then by `after`; those with the same `after` in the order given.
pub struct FaultScript {
    faults: Vec<Fault>,
}

impl Model for FaultScript {
    ghost use Rattle.std.specs.Prelude.{List};
    ghost use Rattle.nook_data.specs.declared.scenario.Fault.{Fault};
    ghost use Rattle.fault_script.specs.Order.{IsOrdered};

    ghost Value = { List Fault };

    ghost view = { λ s. s.faults.items };

    ghost invariant = { λ s. IsOrdered s.faults.items };
}

impl Drop for FaultScript {
    /// Written by hand, so that it is proved once and not in each function that owns a script.
    fn drop(self) {
        let FaultScript { faults: _ } = self;
    }
}

impl FaultScript {
    /// Sorts the faults. The sort needs memory in addition to theirs.
    pub fn new(faults: Faults) -> Result<FaultScript, NoMemory>
        ensures { IfOk result
            (λ script. (burst : ℕ) → faults_of_burst burst script ≡ faults_of_burst burst faults) }
    {
        let mut faults = faults.into_vec();
        // The second sort keeps the first one's order among faults of the same burst.
        faults.sort_by_key(|fault| fault.after)?;
        faults.sort_by_key(|fault| fault.burst)?;
        Ok(FaultScript { faults })
    }

    /// The faults of a burst, in the order in which they strike. It looks at few of the others, because the faults of
    /// one burst are consecutive.
    pub fn faults_at(&self, burst: u32) -> &[Fault]
        ensures { result.now ≡ faults_of_burst burst self.now }
    {
        let start = self.faults.partition_point(|fault| fault.burst < burst);
        let (_, rest) = self.faults.split_at(start);
        let count = rest.partition_point(|fault| fault.burst <= burst);
        let (found, _) = rest.split_at(count);
        found
    }
}

impl TryCopy for FaultScript {
    fn copy(&self, alloc: Global) -> Result<FaultScript, NoMemory> {
        Ok(FaultScript {
            faults: copy_all(alloc, &self.faults)?,
        })
    }
}
