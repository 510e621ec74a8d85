//! Marks by which threads wait for each other.

use std::sync::atomic::{AtomicU32, Ordering};

/// How often a thread looks for what it waits for before it gives up.
pub const TURNS: u32 = 100_000_000;

/// A mark that some thread puts, and others wait for.
#[derive(Drop)]
pub struct Mark {
    put: AtomicU32,
}

impl Mark {
    /// It is not put yet.
    pub fn new() -> Mark {
        Mark {
            put: AtomicU32::new(0),
        }
    }

    /// Puts it.
    pub fn put(&self) {
        self.put.store(1, Ordering::SeqCst);
    }

    /// Whether it is put.
    pub fn is_put(&self) -> bool {
        self.put.load(Ordering::SeqCst) == 1
    }

    /// Waits for it. Whether it came.
    pub fn came(&self) -> bool {
        for _ in 0..TURNS {
            if self.is_put() {
                return true;
            }
        }
        false
    }
}

/// What nobody may do in vain: to wait for a mark.
#[derive(Drop)]
pub struct Waits {
    late: Mark,
}

impl Waits {
    /// Nobody has waited.
    pub fn new() -> Waits {
        Waits { late: Mark::new() }
    }

    /// Waits for a mark.
    pub fn hold(&self, mark: &Mark) {
        if !mark.came() {
            self.late.put();
        }
    }

    /// Whether nobody has waited in vain.
    pub fn are_kept(&self) -> bool {
        !self.late.is_put()
    }
}
