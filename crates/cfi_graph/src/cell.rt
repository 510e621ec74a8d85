//! The cells of late imports.

ghost use Rattle.std.specs.Prelude.{◌≡◌, ◌++◌, ◌+◌, ◌<◌, ◌^◌, All, IfOk, OnOk, List, ℕ};
ghost use Rattle.std.specs.Int.{w32, to_le_bytes};
ghost use Rattle.std.specs.List.{Contains};
ghost use Rattle.cfi_aux.specs.declared.placed.Placed.{Placed as PlacedModule};
ghost use Rattle.cfi_graph.specs.Cell.{cell_by, cell_word, cells_in, cells_of, HasData, IsCellWord};
ghost use Rattle.cfi_graph.specs.Named.{entry_among};
ghost use Rattle.cfi_graph.specs.Shaped.{IsShaped};
ghost use Rattle.cfi_graph.specs.inner.Imports.{imports_in};

use crate::imports::{Imports, imports_named};
use crate::names::names_in;
use cfi_aux::{Kind, Placed};
use cfi_unit::Fill;
use cfi_values::Bytes;
use std::alloc::{AllocError, Global};

// The word of the cell of a name.
fn cell_word(imports: &Imports<'_>, name: &str) -> u32
    ensures { result ≡ cell_word (imports_in imports.now) name.now }
{
    imports.find(name).unwrap_or(0)
}

// A word at an address, the least byte first.
fn word_at(alloc: Global, at: u32, word: u32) -> Result<Fill, AllocError>
    ensures { IfOk result (λ fill. fill ≡ record { at = at; bytes = to_le_bytes w32 word }) }
{
    let mut bytes = Vec::new(alloc);
    bytes.extend_from_slice(&word.to_le_bytes())?;
    Ok(Fill {
        at,
        bytes: Bytes::from_vec(bytes),
    })
}

// The cell of a branch of a module, if it is an import.
fn cell_by(
    alloc: Global,
    imports: &Imports<'_>,
    placed: &Placed,
    kind: &Kind,
) -> Result<Option<Fill>, AllocError>
    requires data { HasData placed.now }
    requires has { Contains placed.now.branches kind.now }
    ensures { IfOk result (λ cell. cell ≡ cell_by (imports_in imports.now) placed.now kind.now) }
{
    let Kind::Import { name, cell } = kind else {
        return Ok(None);
    };
    let word = cell_word(imports, name.as_str());
    Ok(Some(word_at(alloc, placed.data_base + *cell, word)?))
}

// Adds the cells of a module.
fn add_cells(
    alloc: Global,
    imports: &Imports<'_>,
    placed: &Placed,
    cells: &mut Vec<Fill>,
) -> Result<(), AllocError>
    requires { HasData placed.now }
    ensures { OnOk result (cells.new.items
        ≡ cells.old.items ++ cells_in (imports_in imports.now) placed.now) }
{
    for kind in placed.branches.as_slice() {
        if let Some(cell) = cell_by(alloc, imports, placed, kind)? {
            cells.push(cell)?;
        }
    }
    Ok(())
}

/// The cells of the modules' imports, with the addresses of what their names mean among the live ones.
///
/// A cell is four bytes of its module's data, the least first, and 0 where no live module has a global function of the
/// name. They come in the order of the modules and of their branches: of two for one cell the later stays.
pub fn cells(alloc: Global, live: &[Placed], modules: &[Placed]) -> Result<Vec<Fill>, AllocError>
    requires shaped { All IsShaped live.now }
    requires data { All HasData modules.now }
    ensures { IfOk result (λ cells. cells.items ≡ cells_of live.now modules.now) }
{
    let names = names_in(alloc, modules)?;
    let imports = imports_named(alloc, live, &names)?;
    let mut cells = Vec::new(alloc);
    for placed in modules {
        add_cells(alloc, &imports, placed, &mut cells)?;
    }
    Ok(cells)
}

/// The word of a cell is the address of the function that the name means to the live modules, or 0 where it means none.
pub fn cells_hold_targets()
    ensures { (live : List PlacedModule) (name : List ℕ) →
        IsCellWord live name (cell_word (entry_among live) name) }
{}
