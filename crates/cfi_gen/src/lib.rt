//! What is drawn of a seed: modules, their sources, files and plan, how much they are, and the summary of their run.
//!
//! Stands on `rand_pcg` and `rand_core`, `cfi_commands`, `cfi_report` and what these stand on; `cfi_request` and
//! `cfi_top` call it. Proved: what is drawn is by the words of the generator, in the order of `specs/Drawn.antt`; the
//! texts are those of `specs/Source.antt` and `specs/Plan.antt`, and no source is longer than a file; the files are
//! those of the drawn sources, assembled, instrumented and written, and the first source that is refused is told with
//! its refusal, by `specs/Generated.antt`; the plan's text is read as the plan of `specs/PlanRead.antt`; how much
//! modules are, by `specs/Measure.antt`; the summary's text is that of `specs/Summary.antt`, of three numbers and a
//! report. Only tested: nothing. Open: that the assembler and the instrumenter refuse no source.
#![tactic(auto)]

mod draws;
mod files;
mod generated;
mod lengths;
mod main_function;
mod measure;
mod plan;
pub mod plan_read;
mod shape;
mod source;
mod spell;
mod summary_text;

pub use generated::{Generated, generate};
pub use lengths::sources_are_short;
pub use measure::measure_of;
pub use shape::{MAX_COUNT, MIN_COUNT};
pub use summary_text::{Measure, summary};
