//! A gate, at which the threads of a run pass, so that a test can hold them.

/// Is told where the threads of a run are. It takes no memory, and may hold a thread for a while.
pub trait Gate: Sync {
    /// Once in each service of a guest, after the guest has parked and before the service's work.
    fn pass(&self, guest: u32, service: u32);

    /// Once before each call of the script, whose number from 0 is given, and without the lock.
    fn line(&self, call: u32);
}

/// Holds nobody.
#[derive(Clone, Copy, Debug)]
pub struct QuietGate;

impl QuietGate {
    /// The gate that holds nobody.
    pub fn new() -> Self {
        QuietGate
    }
}

impl Gate for QuietGate {
    fn pass(&self, _guest: u32, _service: u32) {}

    fn line(&self, _call: u32) {}
}
