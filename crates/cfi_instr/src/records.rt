//! The records of an instrumented module.

ghost use Rattle.std.specs.Prelude.{◌≡◌, map, IfOk};
ghost use Rattle.cfi_instr.specs.Moves.{moved_function, moved_kind};
ghost use Rattle.cfi_instr.specs.Sizes.{moved};

use crate::arrangement::Arrangement;
use crate::sizes::moved;
use cfi_aux::{Function, Kind};
use cfi_values::Items;
use elf_read::Name;
use std::alloc::{AllocError, Global};

impl<'a> Arrangement<'a> {
    fn moved_function(&self, alloc: Global, function: &Function) -> Result<Function, AllocError>
        ensures { IfOk result (λ found.
            found ≡ moved_function self.now.source self.now.offsets function.now) }
    {
        let begin = function.offset as usize;
        let offset = moved(self.source, self.offsets, begin);
        let end = moved(self.source, self.offsets, begin + function.length as usize);
        let name = String::from_str(alloc, function.name.as_str())?;
        Ok(Function {
            offset,
            length: end.saturating_sub(offset),
            ty: function.ty,
            taken: function.taken,
            name: Name::from_string(name),
        })
    }

    /// The functions of the module, moved.
    pub fn moved_functions(
        &self,
        alloc: Global,
        functions: &[Function],
    ) -> Result<Vec<Function>, AllocError>
        ensures { IfOk result (λ found. found.items
            ≡ map (moved_function self.now.source self.now.offsets) functions.now) }
    {
        let mut found = Vec::with_capacity(alloc, functions.len())?;
        for function in functions {
            found.push(self.moved_function(alloc, function)?)?;
        }
        Ok(found)
    }

    // The entries of a switch, moved.
    fn moved_entries(&self, alloc: Global, entries: &[u32]) -> Result<Vec<u32>, AllocError>
        ensures { IfOk result (λ found.
            found.items ≡ map (moved self.now.source self.now.offsets) entries.now) }
    {
        let mut found = Vec::with_capacity(alloc, entries.len())?;
        for entry in entries {
            found.push(moved(self.source, self.offsets, *entry as usize))?;
        }
        Ok(found)
    }

    fn moved_kind(&self, alloc: Global, kind: &Kind) -> Result<Kind, AllocError>
        ensures { IfOk result (λ found.
            found ≡ moved_kind self.now.source self.now.offsets kind.now) }
    {
        Ok(match kind {
            Kind::Call(node) => Kind::Call(*node),
            Kind::Tail(node) => Kind::Tail(*node),
            Kind::Return => Kind::Return,
            Kind::Switch(entries) => {
                Kind::Switch(Items::from_vec(self.moved_entries(alloc, entries.as_slice())?))
            }
            Kind::Import { name, cell } => Kind::Import {
                name: Name::from_string(String::from_str(alloc, name.as_str())?),
                cell: *cell,
            },
        })
    }

    /// The kinds of the module's indirect jumps, their entries moved.
    pub fn moved_kinds(&self, alloc: Global, branches: &[Kind]) -> Result<Vec<Kind>, AllocError>
        ensures { IfOk result (λ found.
            found.items ≡ map (moved_kind self.now.source self.now.offsets) branches.now) }
    {
        let mut found = Vec::with_capacity(alloc, branches.len())?;
        for kind in branches {
            found.push(self.moved_kind(alloc, kind)?)?;
        }
        Ok(found)
    }
}
