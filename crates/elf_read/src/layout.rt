ghost use Rattle.std.specs.Prelude.{◌≡◌, ◌<◌, ◌≤◌, ◌+◌, ◌*◌, ◌^◌, IfOk};
ghost use Rattle.elf_read.specs.Header.{section_count};
ghost use Rattle.elf_read.specs.Join.{aligned, alignment_of, text_size, text_end, data_end, start_of};
ghost use Rattle.elf_read.specs.Layout.{IsLayout};
ghost use Rattle.cfi_word.specs.declared.map.TheConstants.{DATA_ALIGNMENT};

use crate::symbol_table::SymbolTable;
use cfi_word::map::DATA_ALIGNMENT;
use std::alloc::{AllocError, Global};

/// Where the sections of a file begin once they are joined, in bytes.
#[derive(Drop)]
pub struct Layout {
    /// Where each section begins in the joined text or data.
    pub starts: Vec<usize>,
    /// The size of the joined text.
    pub text_size: usize,
    /// The size of the joined data.
    pub data_size: usize,
}

/// The next multiple of the alignment from `n` on.
#[tactic(auto, unfolding(crate::specs::Join::aligned))]
pub fn align_up(n: usize, alignment: usize) -> usize
    requires some { 0 < alignment }
    requires small { alignment ≤ DATA_ALIGNMENT }
    requires fits { n < 2 ^ 60 }
    ensures same { result ≡ aligned n alignment }
    ensures above { n ≤ result }
    ensures near { result < n + alignment }
{
    (n + (alignment - 1)) / alignment * alignment
}

/// The alignment of section `k`: 0 counts as 1, and more than 16 as 16.
#[tactic(auto, unfolding(crate::specs::Join::alignment_of))]
pub fn alignment_of(table: &SymbolTable<'_>, k: usize) -> usize
    requires within { k < section_count table.now }
    ensures same { result ≡ alignment_of table.now k }
    ensures some { 0 < result }
    ensures small { result ≤ DATA_ALIGNMENT }
{
    let alignment = table.section(k).alignment;
    alignment.max(1).min(DATA_ALIGNMENT as u32) as usize
}

/// How many bytes section `k` adds to the text.
#[tactic(auto, unfolding(crate::specs::Join::text_size))]
fn text_size_of(table: &SymbolTable<'_>, k: usize) -> usize
    requires within { k < section_count table.now }
    ensures same { result ≡ text_size table.now k }
    ensures small { result < 2 ^ 32 }
{
    if !table.is_text(k) {
        return 0;
    }
    table.section(k).size as usize
}

/// Where the data of the sections up to `k` ends, where that of the sections before it ends at `end`.
pub fn data_end_of(table: &SymbolTable<'_>, k: usize, end: usize) -> usize
    requires within { k < section_count table.now }
    requires end { end ≡ data_end table.now k }
    requires fits { end < 2 ^ 60 }
    ensures same { result ≡ data_end table.now (k + 1) }
    ensures above { end ≤ result }
    ensures near { result < end + 2 ^ 32 + DATA_ALIGNMENT }
{
    if !table.is_data(k) {
        return end;
    }
    let start = align_up(end, alignment_of(table, k));
    start + table.section(k).size as usize
}

/// Where section `k` begins, where the text and the data of the sections before it end.
#[tactic(auto, unfolding(crate::specs::Join::start_of))]
fn start_of(table: &SymbolTable<'_>, k: usize, text: usize, data: usize) -> usize
    requires within { k < section_count table.now }
    requires text { text ≡ text_end table.now k }
    requires static_data { «data» ≡ data_end table.now k }
    requires fits { «data» < 2 ^ 60 }
    ensures { result ≡ start_of table.now k }
{
    if table.is_text(k) {
        return text;
    }
    align_up(data, alignment_of(table, k))
}

/// Where the sections begin.
pub fn layout_of(alloc: Global, table: &SymbolTable<'_>) -> Result<Layout, AllocError>
    ensures { IfOk result (IsLayout table.now) }
{
    let mut starts = Vec::new(alloc);
    let mut text_size = 0;
    let mut data_size = 0;
    for k in 0..table.section_count() {
        starts.push(start_of(table, k, text_size, data_size))?;
        text_size += text_size_of(table, k);
        data_size = data_end_of(table, k, data_size);
    }
    Ok(Layout {
        starts,
        text_size,
        data_size,
    })
}
