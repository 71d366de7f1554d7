//! The shadow's decision on an operation.

use nook_data::calls::Answer;

/// What the shadow does with an operation instead of the driver.
#[derive(Drop)]
pub enum Proxy {
    /// It is answered.
    Answer(Answer),
    /// It waits for the driver, neither answered nor dropped.
    Hold,
}
