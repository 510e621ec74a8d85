//! A gate that counts.

use cfi_io::Gate;
use std::sync::atomic::{AtomicU32, Ordering};

/// Counts the services that guests ask for.
#[derive(Drop)]
pub struct CountingGate {
    passes: AtomicU32,
}

impl CountingGate {
    /// A gate that nobody has passed.
    pub fn new() -> Self {
        CountingGate {
            passes: AtomicU32::new(0),
        }
    }

    /// How often it was passed.
    pub fn passes(&self) -> u32 {
        self.passes.load(Ordering::SeqCst)
    }
}

impl Gate for CountingGate {
    fn pass(&self, _guest: u32, _service: u32) {
        self.passes.fetch_add(1, Ordering::SeqCst);
    }

    fn line(&self, _call: u32) {}
}
