//! What the shadow keeps of a part while its driver runs: the open calls, the configuration last
//! acknowledged, and the thread that has the stream.
#![tactic(auto)]

mod log;

pub use log::ShadowLog;
