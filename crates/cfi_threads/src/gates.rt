//! Gates that hold guests and the script.

use crate::marks::{Mark, Waits};
use cfi_io::Gate;
use cfi_word::services::{EXIT, OPEN, QUIET};

/// A gate that knows whether somebody has waited at it in vain.
pub trait Watched: Gate {
    /// Whether nobody has.
    fn is_kept(&self) -> bool;
}

/// Holds each of two guests in its quiet service until the other has come to it.
#[derive(Drop)]
pub struct Meeting {
    first: Mark,
    second: Mark,
    waits: Waits,
}

impl Meeting {
    /// No guest has come.
    pub fn new() -> Meeting {
        Meeting {
            first: Mark::new(),
            second: Mark::new(),
            waits: Waits::new(),
        }
    }

    // Puts a mark and waits for the other.
    fn meet(&self, mine: &Mark, other: &Mark) {
        mine.put();
        self.waits.hold(other);
    }
}

impl Gate for Meeting {
    fn pass(&self, guest: u32, service: u32) {
        match (guest, service) {
            (0, QUIET) => self.meet(&self.first, &self.second),
            (1, QUIET) => self.meet(&self.second, &self.first),
            _ => {}
        }
    }

    fn line(&self, _call: u32) {}
}

impl Watched for Meeting {
    fn is_kept(&self) -> bool {
        self.waits.are_kept()
    }
}

/// Holds the script's first call until guest 0 has come to its quiet service, and that guest's exit until the script
/// has come to its second call.
#[derive(Drop)]
pub struct Weaving {
    quiet: Mark,
    second: Mark,
    waits: Waits,
}

impl Weaving {
    /// Neither has come.
    pub fn new() -> Weaving {
        Weaving {
            quiet: Mark::new(),
            second: Mark::new(),
            waits: Waits::new(),
        }
    }
}

impl Gate for Weaving {
    fn pass(&self, guest: u32, service: u32) {
        match (guest, service) {
            (0, QUIET) => self.quiet.put(),
            (0, EXIT) => self.waits.hold(&self.second),
            _ => {}
        }
    }

    fn line(&self, call: u32) {
        match call {
            0 => self.waits.hold(&self.quiet),
            1 => self.second.put(),
            _ => {}
        }
    }
}

impl Watched for Weaving {
    fn is_kept(&self) -> bool {
        self.waits.are_kept()
    }
}

/// Holds guest 0 in its open until the script has made its first call, and the script's second call until that guest
/// has come to its exit.
#[derive(Drop)]
pub struct Crossing {
    second: Mark,
    exit: Mark,
    waits: Waits,
}

impl Crossing {
    /// Neither has come.
    pub fn new() -> Crossing {
        Crossing {
            second: Mark::new(),
            exit: Mark::new(),
            waits: Waits::new(),
        }
    }
}

impl Gate for Crossing {
    fn pass(&self, guest: u32, service: u32) {
        match (guest, service) {
            (0, OPEN) => self.waits.hold(&self.second),
            (0, EXIT) => self.exit.put(),
            _ => {}
        }
    }

    fn line(&self, call: u32) {
        if call == 1 {
            self.second.put();
            self.waits.hold(&self.exit);
        }
    }
}

impl Watched for Crossing {
    fn is_kept(&self) -> bool {
        self.waits.are_kept()
    }
}

/// Holds the script's first call until guest 0 has come to its quiet service, each guest in that service until the
/// script has made its first so many calls, and the next call until a guest has come to its exit.
#[derive(Drop)]
pub struct Parking {
    calls: u32,
    come: Mark,
    made: Mark,
    exit: Mark,
    waits: Waits,
}

impl Parking {
    /// Neither has come.
    pub fn new(calls: u32) -> Parking {
        Parking {
            calls,
            come: Mark::new(),
            made: Mark::new(),
            exit: Mark::new(),
            waits: Waits::new(),
        }
    }
}

impl Gate for Parking {
    fn pass(&self, guest: u32, service: u32) {
        match service {
            QUIET => {
                if guest == 0 {
                    self.come.put();
                }
                self.waits.hold(&self.made);
            }
            EXIT => self.exit.put(),
            _ => {}
        }
    }

    fn line(&self, call: u32) {
        if call == 0 {
            self.waits.hold(&self.come);
        }
        if call == self.calls {
            self.made.put();
            self.waits.hold(&self.exit);
        }
    }
}

impl Watched for Parking {
    fn is_kept(&self) -> bool {
        self.waits.are_kept()
    }
}

/// Tells of guest 0 in its quiet service, and holds it there until another thread holds the lock, which keeps it until
/// that guest has ended.
#[derive(Drop)]
pub struct Holding {
    come: Mark,
    held: Mark,
    ended: Mark,
    waits: Waits,
}

impl Holding {
    /// The guest has not come.
    pub fn new() -> Holding {
        Holding {
            come: Mark::new(),
            held: Mark::new(),
            ended: Mark::new(),
            waits: Waits::new(),
        }
    }

    /// Tells that the guest has come, and waits for the lock to be held.
    pub fn come(&self) {
        self.come.put();
        self.waits.hold(&self.held);
    }

    /// Waits for the guest to come. Whether it came.
    pub fn has_come(&self) -> bool {
        self.come.came()
    }

    /// Tells that the lock is held, and waits for the guest to end. Whether it did.
    pub fn hold(&self) -> bool {
        self.held.put();
        self.ended.came()
    }

    /// Tells that the guest has ended. Whether it has not waited in vain.
    pub fn end(&self) -> bool {
        self.ended.put();
        self.waits.are_kept()
    }
}

impl Gate for Holding {
    fn pass(&self, guest: u32, service: u32) {
        if guest == 0 && service == QUIET {
            self.come();
        }
    }

    fn line(&self, _call: u32) {}
}
