use cfi_unit::Stop;

/// How the policy machine's unit ended.
#[derive(Clone, Copy, Debug, PartialEq, Eq)]
pub enum PlainStep {
    /// The next unit can run.
    Went,
    /// It waits for the answer to an open of the module of this number.
    Asks(u32),
    /// The guest has stopped.
    Stopped(Stop),
}
