//! A run by threads, and a gate that holds them back.

use crate::inputs::TWO_THREADS;
use crate::running::words_of;
use nook_data::lists::Words8;
use nook_io::outside::Gate;
use nooks::{Status, run_plain};
use std::sync::atomic::{AtomicU64, Ordering};
use std::test::Fail;

/// How often a gate checks before it gives up.
const MOST_LOOKS: u32 = 500_000_000;

/// Holds thread 0 before its first operation until thread 1 has passed to its second, and thread 1 before its third
/// until thread 0 has passed to its second. So two threads pass only if they run concurrently.
#[derive(Drop)]
struct HoldingGate {
    passed: [AtomicU64; 2],
    gave_up: AtomicU64,
}

impl HoldingGate {
    /// Waits until a thread has passed twice, or gives up.
    fn wait_for(&self, passed: &AtomicU64) {
        for _ in 0..MOST_LOOKS {
            if passed.load(Ordering::SeqCst) >= 2 {
                return;
            }
        }
        self.gave_up.fetch_add(1, Ordering::SeqCst);
    }
}

impl Gate for HoldingGate {
    fn pass(&self, thread: u8, index: u32) {
        let [first, second] = &self.passed;
        match (thread, index) {
            (0, 0) => self.wait_for(second),
            (1, 2) => self.wait_for(first),
            _ => (),
        }
        let own = if thread == 0 { first } else { second };
        own.fetch_add(1, Ordering::SeqCst);
    }
}

/// Two threads run concurrently: each waits for the other in turn, and the gate does not give up. Each passes the
/// gate once for each of its operations.
#[test]
fn threads_run_concurrently(rt: HostRuntime) -> Result<(), Fail> {
    let alloc = rt.alloc();
    let words = words_of(alloc, "run threads")?;
    let bytes = Words8::from_vec(TWO_THREADS.as_bytes().to_vec(alloc)?);
    let gate = HoldingGate {
        passed: [AtomicU64::new(0), AtomicU64::new(0)],
        gave_up: AtomicU64::new(0),
    };
    let status = run_plain(&rt, alloc, words.as_slice(), bytes, Vec::new(alloc), &gate);
    assert_eq!(rt; status, Status::Done);
    assert_eq!(rt; gate.gave_up.load(Ordering::SeqCst), 0);
    let [first, second] = &gate.passed;
    assert_eq!(rt; first.load(Ordering::SeqCst), 2);
    assert_eq!(rt; second.load(Ordering::SeqCst), 3);
    Ok(())
}
