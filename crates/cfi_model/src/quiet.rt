/// The QUIET word of a guest inside a service.
pub const PARKED: u64 = 18_446_744_073_709_551_615;

/// What a guest's QUIET word tells.
#[derive(Clone, Copy, Debug, PartialEq, Eq)]
pub enum Quiet {
    /// The guest is not registered.
    Unregistered,
    /// The guest is inside a service.
    Parked,
    /// The guest found this epoch in EPOCH at its last quiescent point.
    Published(u32),
}

/// How far a guest has come in a service. It parks, its work is done or waits for an answer, and a quiescent point ends
/// it.
#[derive(Clone, Copy, Debug, PartialEq, Eq)]
pub enum Point {
    /// It is in none.
    Outside,
    /// It has parked, and waits for the answer to its open.
    Asking,
    /// Its work is done, and the quiescent point has not begun.
    Leaving,
    /// The quiescent point has found this epoch in EPOCH, and has not published it.
    Found(u32),
}
