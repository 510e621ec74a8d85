//! Modules joined in order.

ghost use Rattle.std.specs.Prelude.{◌≡◌, ◌+◌, ◌<◌, ◌^◌, None, All, OnOk, IfOk, length};
ghost use Rattle.cfi_aux.specs.Sound.{IsSoundModule};
ghost use Rattle.cfi_link.specs.Joined.{nothing, with_data, start_of, with_module, joined_of};
ghost use Rattle.cfi_link.specs.Gap.{gap};
ghost use Rattle.cfi_link.specs.Fault.{passed_by};
ghost use Rattle.cfi_link.specs.inner.Room.{HasRoom};

use crate::records::{push_branches, push_functions};
use crate::shift::{push_nodes, push_relocs, push_symbols};
use crate::start::{Start, gap};
use cfi_aux::{Function, Kind, Module};
use cfi_type_table::TypeNode;
use elf_read::{Reloc, Symbol};
use std::alloc::{AllocError, Global};
use std::marker::Model;

/// A relocation of one of several modules.
#[derive(Clone, Copy, Debug, PartialEq, Eq)]
pub struct OwnReloc {
    /// The number of its module, from 0.
    pub owner: u32,
    /// Its number there, from 0.
    pub number: u32,
    /// The relocation, by the numbers of the joined modules.
    pub reloc: Reloc,
}

/// Modules joined in order.
#[derive(Drop)]
pub struct Joined {
    pub(crate) text: Vec<u8>,
    pub(crate) static_data: Vec<u8>,
    pub(crate) symbols: Vec<Symbol>,
    pub(crate) relocs: Vec<OwnReloc>,
    pub(crate) types: Vec<TypeNode>,
    pub(crate) functions: Vec<Function>,
    pub(crate) branches: Vec<Kind>,
    // How many modules they are.
    pub(crate) count: u32,
}

impl Model for Joined {
    ghost use Rattle.cfi_link.specs.Joined.{Joined as Whole};

    ghost Value = { Whole };

    ghost use Rattle.cfi_link.specs.inner.Kept.{whole_of};

    ghost view = { whole_of };
}

// Adds the data of a module.
fn push_data(out: &mut Vec<u8>, static_data: &[u8]) -> Result<(), AllocError>
    ensures { OnOk result (out.new.items ≡ with_data out.old.items static_data.now) }
{
    let length = out.len();
    out.resize(length + gap(length), 0)?;
    out.extend_from_slice(static_data)?;
    Ok(())
}

impl Joined {
    // No modules.
    fn new(alloc: Global) -> Joined
        ensures { result ≡ nothing }
    {
        Joined {
            text: Vec::new(alloc),
            static_data: Vec::new(alloc),
            symbols: Vec::new(alloc),
            relocs: Vec::new(alloc),
            types: Vec::new(alloc),
            functions: Vec::new(alloc),
            branches: Vec::new(alloc),
            count: 0,
        }
    }

    // Where the next module begins.
    fn start(&self) -> Start
        requires text { length self.now.text < 2 ^ 32 }
        requires static_data { length self.now.static_data + gap (length self.now.static_data)
            < 2 ^ 32 }
        requires symbols { length self.now.symbols < 2 ^ 32 }
        requires types { length self.now.types < 2 ^ 32 }
        ensures { result ≡ start_of self.now }
    {
        let static_data = self.static_data.len();
        Start {
            text: self.text.len() as u32,
            static_data: (static_data + gap(static_data)) as u32,
            symbols: self.symbols.len() as u32,
            types: self.types.len() as u32,
        }
    }

    // Adds a module.
    fn add(&mut self, alloc: Global, added: &Module) -> Result<(), AllocError>
        requires sound { IsSoundModule added.now }
        requires room { HasRoom self.old added.now }
        ensures { OnOk result (self.new ≡ with_module self.old added.now) }
    {
        let start = self.start();
        let object = &added.object;
        let records = &added.records;
        self.text.extend_from_slice(object.text.as_slice())?;
        push_data(&mut self.static_data, object.static_data.as_slice())?;
        push_symbols(alloc, &mut self.symbols, start, object.symbols.as_slice())?;
        push_relocs(
            &mut self.relocs,
            start,
            self.count,
            object.relocs.as_slice(),
        )?;
        push_nodes(alloc, &mut self.types, start, added.types.nodes())?;
        push_functions(
            alloc,
            &mut self.functions,
            start,
            records.functions.as_slice(),
        )?;
        push_branches(
            alloc,
            &mut self.branches,
            start,
            records.branches.as_slice(),
        )?;
        self.count += 1;
        Ok(())
    }
}

/// The modules joined in order.
pub fn join(alloc: Global, modules: &[Module]) -> Result<Joined, AllocError>
    requires sound { All IsSoundModule modules.now }
    requires count { length modules.now < 2 ^ 32 }
    requires within { passed_by modules.now ≡ None }
    ensures { IfOk result (λ joined. joined ≡ joined_of modules.now) }
{
    let mut joined = Joined::new(alloc);
    for added in modules {
        joined.add(alloc, added)?;
    }
    Ok(joined)
}
