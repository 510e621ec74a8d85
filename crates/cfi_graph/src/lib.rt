//! The control-flow graph of placed modules: which code addresses each of their branches may go to.
//!
//! Stands on `cfi_unit`, `cfi_word`, `cfi_type_table`, `cfi_types`, `cfi_aux`, `cfi_flow` and `cfi_fits`; `cfi_policy`
//! calls it. Proved: the direct edges of modules are exactly those of `specs/Direct.antt`, in order, each once; a few
//! of them, in number bound by what the modules hold, have chains that join what any joins; those that one module more
//! brings are told without the others; links that are kept are those of all modules when one is added; the units of a
//! module's code are read with the words at which they stand; shaped modules, each of which follows the one before, are
//! apart, and so are the live ones of modules that are; the policy allows each direct edge; a name means one address to
//! the modules that import it, and the cells of imports hold it; a graph can be made of some module. Only tested, in `cfi_calls`: the edges of modules
//! that are written by hand. No clause says how much is looked at: where a module is added its code is read, and that
//! of modules whose imports it meets; names of functions before it are looked at only where it imports some, or has
//! some that they import. Open: nothing.
#![tactic(auto)]

mod addition;
mod branch_facts;
mod cell;
mod direct;
mod fact;
mod facts;
mod imports;
mod kept_graph;
mod laws;
mod marks;
mod more;
mod names;
mod new_edges;
mod place;
mod shaped;
mod spot;

pub use cell::{cells, cells_hold_targets};
pub use direct::{edges, spanning};
pub use kept_graph::KeptGraph;
pub use laws::{a_name_means_one_address, direct_is_allowed, some_module_has_graph};
pub use new_edges::fresh;
pub use place::word_to;
pub use shaped::{live_are_apart, shaped_are_apart};
pub use spot::spots;
