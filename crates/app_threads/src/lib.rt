//! Application threads: each script, and each network part's arrivals, has its own worker.
#![tactic(auto)]

mod access;
mod arrivals;
mod script;
mod seats;
mod stop;
mod work;
mod workers;

pub use stop::WorkerStop;
pub use work::Work;
pub use workers::run_workers;
