//! What workers are given.

use nook_data::calls::Op;
use nook_data::lists::Frames;
use nook_data::scenario::ThreadSpecs;
use std::alloc::Global;

/// What a worker needs to call the desks: the runtime, the allocator and the desks.
#[derive(Drop)]
pub struct DeskAccess<'a, R, D> {
    pub rt: &'a R,
    pub alloc: Global,
    pub desks: &'a [D],
}

/// What all workers together are to do, and the gate that is passed before each operation of a script.
#[derive(Drop)]
pub struct Tasks<'a, G> {
    pub scripts: &'a ThreadSpecs,
    pub arrivals: &'a [Frames],
    pub gate: &'a G,
}

/// An operation of a thread's script: its index there, and the index of the desk that it is for.
#[derive(Drop)]
pub struct ScriptOp<'a> {
    pub thread: u8,
    pub index: u32,
    pub part: u32,
    pub op: &'a Op,
}
