//! What a simulation has come to.

use cfi_model::Phase;
use cfi_report::Report;

/// What a simulation has come to after its schedule.
#[derive(Debug, Drop)]
pub struct SimReport {
    /// How far the updater has come.
    pub phase: Phase,
    /// The report. A guest that has not stopped has no stop.
    pub report: Report,
}
