//! Which function types a pointer's type may reach.
//!
//! Stands on `cfi_word`, `cfi_type_table`, `cfi_types` and `cfi_flow`; `cfi_graph` calls it. Proved: links lead from
//! the class of a type to that of a function's type exactly where pointers to this may reach functions of that. Only
//! tested, by `cfi_calls`: that ample memory is enough. Open: nothing.
#![tactic(auto)]

mod gathering;
mod nearest;
mod signature;
mod widening;

pub use widening::widenings;
