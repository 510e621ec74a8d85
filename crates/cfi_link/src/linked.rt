//! Linking modules.

ghost use Rattle.std.specs.Prelude.{◌≡◌, ◌<◌, ◌^◌, ℕ, List, None, length, IfOk, IfErr, OnOk, All};
ghost use Rattle.cfi_type_table.specs.Spelling.{spelling as types_spelling};
ghost use Rattle.cfi_aux.specs.Records.{CanBeWritten, spelling as records_spelling};
ghost use Rattle.cfi_aux.specs.Sound.{IsSoundModule};
ghost use Rattle.cfi_link.specs.Chosen.{chosen_in, twice_in};
ghost use Rattle.cfi_link.specs.Fault.{sizes_of, passed, relocated_by, IsFirstLinkFault};
ghost use Rattle.cfi_link.specs.inner.Kept.{chosen_by, IsRelocFault};
ghost use Rattle.cfi_link.specs.Linked.{AreModules, IsTextOf, IsMadeOf, Linked, kept_relocs};
ghost use Rattle.cfi_link.specs.inner.Made.{AreSound, IsMakeFault};

use crate::applied::applied_text;
use crate::chosen::{Definitions, choose};
use crate::fault::LinkFault;
use crate::joined::{Joined, join};
use crate::kept::{by_area, kept_in};
use crate::limits::passed_by;
use crate::numbers::numbers_of;
use crate::reach::reaches_of;
use crate::settled::{in_order, settled};
use crate::texts::check_texts;
use cfi_aux::{Module, Records, write_records};
use cfi_place::placed_words;
use cfi_type_table::{TypeTable, write_types};
use cfi_values::{Bytes, Items};
use elf_read::{Object, Reloc, Relocs, Symbol, Symbols};
use rv_words::bytes_of;
use std::alloc::{AllocError, Global};

// The text that joined modules make, and their relocations that are kept.
fn parts_of(
    alloc: Global,
    joined: &Joined,
    definitions: &Definitions,
) -> Result<(Vec<u8>, Vec<Reloc>), LinkFault>
    requires sound { AreSound joined.now }
    requires few { passed (sizes_of joined.now) ≡ None }
    requires chosen { (name : List ℕ) →
        chosen_by definitions.now name ≡ chosen_in joined.now.symbols name }
    ensures text { IfOk result (λ parts. IsTextOf joined.now parts.0.items) }
    ensures relocs { IfOk result (λ parts. parts.1.items ≡ kept_relocs joined.now) }
    ensures fault { IfErr result (IsRelocFault (relocated_by joined.now)) }
{
    let symbols = joined.symbols.as_slice();
    let relocs = joined.relocs.as_slice();
    let source = joined.text.as_slice();
    let reaches = reaches_of(alloc, definitions, symbols)?;
    let text = match applied_text(alloc, source, reaches.as_slice(), relocs) {
        Ok(text) => text,
        Err(fault) => return Err(fault),
    };
    let words = placed_words(alloc, source, text.as_slice(), 0)?;
    let bytes = bytes_of(alloc, words.as_slice())?;
    let numbers = numbers_of(alloc, symbols)?;
    let kept = kept_in(alloc, reaches.as_slice(), numbers.as_slice(), relocs)?;
    let relocs = by_area(alloc, kept.as_slice())?;
    Ok((bytes, relocs))
}

// The bytes of the types and of the records.
fn spelled(
    alloc: Global,
    types: &TypeTable,
    records: &Records,
) -> Result<(Bytes, Bytes), AllocError>
    requires count { length types.now < 2 ^ 32 }
    requires fields { All (λ x. length x.fields < 2 ^ 32) types.now }
    requires records { CanBeWritten records.now }
    ensures types { IfOk result (λ bytes. bytes.0 ≡ types_spelling types.now) }
    ensures records { IfOk result (λ bytes. bytes.1 ≡ records_spelling records.now) }
{
    let types = Bytes::from_vec(write_types(alloc, types)?);
    let records = Bytes::from_vec(write_records(alloc, records)?);
    Ok((types, records))
}

// The module that joined modules make.
fn make(alloc: Global, joined: Joined) -> Result<Module, LinkFault>
    requires sound { AreSound joined }
    requires few { passed (sizes_of joined) ≡ None }
    ensures ok { IfOk result (IsMadeOf joined) }
    ensures once { OnOk result (twice_in joined.symbols ≡ None) }
    ensures fault { IfErr result (IsMakeFault joined) }
{
    let definitions = choose(alloc, joined.symbols.as_slice())?;
    let (text, relocs) = parts_of(alloc, &joined, &definitions)?;
    let symbols = in_order(alloc, settled(alloc, &definitions, joined.symbols)?)?;
    let types = TypeTable::from_vec(joined.types);
    let records = Records {
        functions: Items::from_vec(joined.functions),
        branches: Items::from_vec(joined.branches),
    };
    let (type_bytes, record_bytes) = spelled(alloc, &types, &records)?;
    let object = Object {
        text: Bytes::from_vec(text),
        static_data: Bytes::from_vec(joined.static_data),
        symbols: Symbols::from_vec(symbols),
        relocs: Relocs::from_vec(relocs),
        types: Some(type_bytes),
        records: Some(record_bytes),
    };
    Ok(Module {
        object,
        types,
        records,
    })
}

/// The module that modules make when they are joined in order, with one definition of each name.
///
/// Of the definitions of a name a global one comes before a weak one, and the first weak one before the others; those
/// that lose become references. Relocations of branches and jumps to places in the joined text are applied, all others
/// kept; checks name the slots from 0 on. The faults come in the order of `LinkFault`. For sound modules. RISC-V ELF
/// psABI, "Relocations"; System V ELF, symbol binding.
pub fn link(alloc: Global, modules: &[Module]) -> Result<Module, LinkFault>
    requires { AreModules modules.now }
    ensures ok { IfOk result (Linked modules.now) }
    ensures sound { IfOk result IsSoundModule }
    ensures fault { IfErr result (IsFirstLinkFault modules.now) }
{
    check_texts(alloc, modules)?;
    if let Some(what) = passed_by(modules) {
        return Err(LinkFault::TooMany(what));
    }
    let linked = make(alloc, join(alloc, modules)?)?;
    Ok(linked)
}
