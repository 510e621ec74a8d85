//! Why a relocation is refused.

use thiserror::Error;

/// Why a relocation can not be applied: its first fault, in the order of the variants.
#[derive(Clone, Copy, Debug, PartialEq, Eq, Error)]
pub enum RelocFault {
    /// The displacement of a branch or a jump does not fit into its field, or is odd.
    #[error("the displacement does not fit")]
    Range,
    /// The high part that a low part belongs to is not there.
    #[error("the high part is missing")]
    NoPartner,
    /// The word is no instruction that has such a field.
    #[error("the instruction has another form")]
    Field,
}
