//! What the rows have found so far.
use std::alloc::Global;

/// A row that does not hold.
#[derive(Debug, Drop)]
pub struct Broken {
    /// What it reads or writes.
    pub row: &'static str,
    /// What does not hold.
    pub why: &'static str,
}

impl Broken {
    /// The row of this name does not hold, for this reason.
    pub fn new(row: &'static str, why: &'static str) -> Broken {
        Broken { row, why }
    }
}

/// Gives the rows their memory, and counts how often it was refused to them.
#[derive(Drop)]
pub struct Tally {
    alloc: Global,
    refusals: u64,
}

impl Tally {
    /// The tally before the first row.
    pub fn new(alloc: Global) -> Tally {
        Tally { alloc, refusals: 0 }
    }

    /// What gives the rows their memory.
    pub fn alloc(&self) -> Global {
        self.alloc
    }

    /// Counts one error.
    pub fn refuse(&mut self) {
        self.refusals = self.refusals.saturating_add(1);
    }

    /// How often memory was refused.
    pub fn refusals(&self) -> u64 {
        self.refusals
    }

    /// The parts after one another, each so many times. None where memory is refused for them,
    /// which is counted.
    pub fn joined(&mut self, parts: &[(&[u8], usize)]) -> Option<Vec<u8>> {
        let mut bytes = Vec::new(self.alloc);
        for (part, times) in parts {
            for _ in 0..*times {
                if bytes.extend_from_slice(part).is_err() {
                    self.refuse();
                    return None;
                }
            }
        }
        Some(bytes)
    }
}
