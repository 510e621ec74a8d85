//! Modules: objects with their types and records.

ghost use Rattle.std.specs.Prelude.{IsTrue, length};
ghost use Rattle.cfi_aux.specs.Cells.{have_cells};

use crate::records::Records;
use cfi_type_table::TypeTable;
use elf_read::Object;

/// A module: an object with its types and records.
#[derive(Debug, Drop)]
pub struct Module {
    /// The object.
    pub object: Object,
    /// The type table of its section of types.
    pub types: TypeTable,
    /// The records of its section of records, which name nodes of that table.
    pub records: Records,
    /// The cell of each import is a whole word of the data.
    pub ghost cells: { IsTrue (have_cells (length object.static_data) records.branches) },
}
