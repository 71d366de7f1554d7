//! The indices of a level's states by digest.

use nook_data::memory::NoMemory;
use std::alloc::Global;
use std::collections::BTreeMap;

/// For each digest the indices of the states that have it. Nothing is guaranteed about them: a caller compares the
/// states.
#[derive(Drop)]
pub struct ByDigest {
    indices: BTreeMap<u64, Vec<usize>>,
}

impl ByDigest {
    /// An empty index. It takes no memory.
    pub fn new(alloc: Global) -> ByDigest {
        ByDigest {
            indices: BTreeMap::new(alloc),
        }
    }

    /// Adds a state with this digest.
    pub fn add(&mut self, alloc: Global, digest: u64, index: usize) -> Result<(), NoMemory> {
        let indices = self.indices.entry(digest)?.or_insert(Vec::new(alloc));
        indices.push(index)?;
        Ok(())
    }

    /// The indices of the states that may have this digest.
    pub fn candidates(&self, digest: u64) -> &[usize] {
        match self.indices.get(&digest) {
            Some(indices) => indices.as_slice(),
            None => &[],
        }
    }
}
