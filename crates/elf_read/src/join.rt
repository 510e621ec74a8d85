ghost use Rattle.std.specs.Prelude.{◌≡◌, ◌<◌, ◌+◌, ◌-◌, ◌++◌, ◌^◌, replicate, IfOk, OnOk};
ghost use Rattle.elf_read.specs.Header.{section_count};
ghost use Rattle.elf_read.specs.Object.{record_bytes};
ghost use Rattle.elf_read.specs.Join.{text_of, data_of, data_contents, data_end, joined_text, joined_data};

use crate::layout::{align_up, alignment_of, data_end_of};
use crate::section::NOBITS;
use crate::symbol_table::SymbolTable;
use cfi_values::Bytes;
use std::alloc::{AllocError, Global};

/// Adds `n` zero bytes.
fn push_zeros(out: &mut Vec<u8>, n: usize) -> Result<(), AllocError>
    requires small { n < 2 ^ 33 }
    ensures ok { OnOk result (out.new.items ≡ out.old.items ++ replicate n 0) }
{
    let len = out.len();
    out.resize(len + n, 0)
}

/// Adds what section `k` adds to the text.
#[tactic(auto, unfolding(crate::specs::Join::text_of))]
fn push_text(out: &mut Vec<u8>, table: &SymbolTable<'_>, k: usize) -> Result<(), AllocError>
    requires within { k < section_count table.now }
    ensures ok { OnOk result (out.new.items ≡ out.old.items ++ text_of table.now k) }
{
    if table.is_text(k) {
        out.extend_from_slice(table.contents(k))?;
    }
    Ok(())
}

/// The joined text.
pub fn join_text(alloc: Global, table: &SymbolTable<'_>) -> Result<Bytes, AllocError>
    ensures { IfOk result (λ text. text ≡ joined_text table.now) }
{
    let mut out = Vec::new(alloc);
    for k in 0..table.section_count() {
        push_text(&mut out, table, k)?;
    }
    Ok(Bytes::from_vec(out))
}

/// Adds the contents of data section `k`, which are zero where the file has none.
#[tactic(auto, unfolding(crate::specs::Join::data_contents))]
fn push_contents(out: &mut Vec<u8>, table: &SymbolTable<'_>, k: usize) -> Result<(), AllocError>
    requires within { k < section_count table.now }
    ensures ok { OnOk result (out.new.items ≡ out.old.items ++ data_contents table.now k) }
{
    let section = table.section(k);
    if section.kind == NOBITS {
        return push_zeros(out, section.size as usize);
    }
    out.extend_from_slice(table.contents(k))
}

/// Adds what section `k` adds to the data, where the data before it ends at `end`.
#[tactic(auto, unfolding(crate::specs::Join::data_of))]
fn push_data(
    out: &mut Vec<u8>,
    table: &SymbolTable<'_>,
    k: usize,
    end: usize,
) -> Result<(), AllocError>
    requires within { k < section_count table.now }
    requires end { end ≡ data_end table.now k }
    requires fits { end < 2 ^ 60 }
    ensures ok { OnOk result (out.new.items ≡ out.old.items ++ data_of table.now k) }
{
    if !table.is_data(k) {
        return Ok(());
    }
    let start = align_up(end, alignment_of(table, k));
    push_zeros(out, start - end)?;
    push_contents(out, table, k)
}

/// The joined data.
pub fn join_data(alloc: Global, table: &SymbolTable<'_>) -> Result<Bytes, AllocError>
    ensures { IfOk result (λ «data». «data» ≡ joined_data table.now) }
{
    let mut out = Vec::new(alloc);
    let mut end = 0;
    for k in 0..table.section_count() {
        push_data(&mut out, table, k, end)?;
        end = data_end_of(table, k, end);
    }
    Ok(Bytes::from_vec(out))
}

/// The contents of the section of types or of records, by its name, if there is one.
#[tactic(auto, unfolding(crate::specs::Object::record_bytes))]
pub fn record_bytes(
    alloc: Global,
    table: &SymbolTable<'_>,
    name: &[u8],
) -> Result<Option<Bytes>, AllocError>
    ensures { IfOk result (λ found. found ≡ record_bytes table.now name.now) }
{
    let k = table.first_record(name);
    if k >= table.section_count() {
        return Ok(None);
    }
    let contents = Vec::from_slice(alloc, table.contents(k))?;
    Ok(Some(Bytes::from_vec(contents)))
}
