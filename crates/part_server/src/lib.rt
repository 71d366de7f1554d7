//! Desks: threads call one part through a lock, and each caller takes whichever step of the part is next.
//!
//! A `PartDesk` keeps a part in a lock of `turn_lock`. A call invokes its operation in one turn and then takes more
//! turns until it is answered, by itself or by another caller. Each turn adds at most one event to the part's journal.
//!
//! Each event has a stamp from Lamport clocks: each seat has a clock, and the part's last stamp serves as another. So
//! the events of several desks can be put into one order. The stamps exist only in contracts.
#![tactic(auto)]

mod answers;
mod dated;
mod desk;
mod held;
mod seat;
mod stamped;
mod waiting;

pub use desk::PartDesk;
pub use seat::DeskSeat;
