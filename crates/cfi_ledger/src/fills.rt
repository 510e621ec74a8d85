//! The data of the loaded modules, and behind it the cells of their late imports.

ghost use Rattle.std.specs.Prelude.{◌≡◌, ◌++◌, OnOk, OnErr};
ghost use Rattle.cfi_graph.specs.Cell.{cells_of};
ghost use Rattle.cfi_modules.specs.Fills.{fills_of};
ghost use Rattle.cfi_ledger.specs.Roster.{live_placed};

use crate::roster::Roster;
use cfi_unit::Fill;
use std::alloc::AllocError;

impl Roster {
    /// The data of each, and behind it the cells that were filled last.
    pub fn fills(&self) -> &[Fill]
        ensures { result.now ≡ fills_of self.now.placed ++ self.now.cells }
    {
        &self.fills
    }

    /// The data of each.
    pub fn data(&self) -> &[Fill]
        ensures { result.now ≡ fills_of self.now.placed }
    {
        &self.fills[..self.lines.len()]
    }

    /// Fills the cells of late imports with what their names mean among the live modules, in place of those that were
    /// filled before. Without memory all stays as it was.
    pub fn fill_cells(&mut self) -> Result<(), AllocError>
        ensures ok { OnOk result (self.new ≡ record self.old {
          cells = cells_of (live_placed self.old) self.old.placed;
        }) }
        ensures same { OnErr result (self.new ≡ self.old) }
    {
        let mut cells = self.series.cells()?;
        self.fills.reserve(cells.len())?;
        self.fills.truncate(self.lines.len());
        self.fills.append(&mut cells)
    }
}
