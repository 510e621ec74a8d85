//! The replay of a guest's part of a report: the policy machine over exactly the log that the part says, unit by unit,
//! with the data that the guest is given and the cells of late imports at each policy of an open.
//!
//! Stands on `cfi_model`, whose machine it turns, on `cfi_valid`, whose definitions it decides, on `cfi_ledger`, which
//! has the loaded modules, and on `cfi_labels`, which says what labels and cells are. Proved: a part is replayed
//! exactly where its units come to a state, and to this state; and this state is said to be the part's end exactly
//! where it is. Only tested: nothing. Open: that memory suffices.
#![tactic(auto)]

mod cursor;
mod ended;
mod fills;
mod go;
mod parts;
mod setting;

pub use ended::has_ended;
pub use parts::replayed;
pub use setting::Setting;
