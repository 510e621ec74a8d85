/// How far the newest update of the tables has come: which word its updater accesses next.
#[derive(Clone, Copy, Debug, PartialEq, Eq)]
pub enum Phase {
    /// No update is under way.
    Idle,
    /// The QUIET word of this guest is tested.
    Testing(u32),
    /// This code word is stored.
    Code(u32),
    /// The Tary word of this code word is stored.
    Tary(u32),
    /// EPOCH is stored.
    Epoch,
    /// The Bary word of this slot is stored.
    Bary(u32),
}
