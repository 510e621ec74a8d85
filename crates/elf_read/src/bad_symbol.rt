ghost use Rattle.std.specs.Prelude.{◌≡◌, ◌<◌, ◌||◌, ℕ, true, false, List, is_some, IfOk, OnOk, IfErr};
ghost use Rattle.std.specs.BTreeMap.{get_by};
ghost use Rattle.std.specs.Cmp.Lexicographic.{slice_cmp};
ghost use Rattle.std.specs.Ordering.{nat_cmp};
ghost use Rattle.elf_read.specs.Places.{some_below};
ghost use Rattle.elf_read.specs.Fault.{IsFirstFault, HasSections, HasSymbols, HasKinds, HasPlaces};
ghost use Rattle.elf_read.specs.Symbol.{symbol_count, name_of, defines, is_bad_info, is_bad_place, is_nameless, is_local_undefined, is_past_section, is_second_definition, is_well_named, is_bad_symbol};
ghost use Rattle.elf_read.specs.inner.Alone.{is_bad_alone};
ghost use Rattle.elf_read.specs.declared.fault.ElfFault.TheVariants.{Memory};

use crate::fault::ElfFault;
use crate::symbol::{ABSOLUTE, COMMON, LOCAL, THREAD_LOCAL, UNDEFINED, WEAK};
use crate::symbol_table::{SymbolTable, binding_of, is_exported_entry, type_of};
use std::alloc::Global;
use std::collections::BTreeMap;

/// Whether the type or the binding of symbol `k` is not taken.
#[tactic(auto, unfolding(crate::specs::Symbol::is_bad_info))]
fn is_bad_info(table: &SymbolTable<'_>, k: usize) -> bool
    requires within { k < symbol_count table.now }
    ensures { result ≡ is_bad_info table.now k }
{
    let entry = table.symbol(k);
    type_of(entry) == THREAD_LOCAL || binding_of(entry) > WEAK
}

/// Whether the section number of symbol `k` is none.
#[tactic(auto, unfolding(crate::specs::Symbol::is_bad_place))]
fn is_bad_place(table: &SymbolTable<'_>, k: usize) -> bool
    requires within { k < symbol_count table.now }
    ensures { result ≡ is_bad_place table.now k }
{
    let section = table.symbol(k).section;
    !(section == UNDEFINED
        || section == ABSOLUTE
        || section == COMMON
        || (section as usize) < table.section_count())
}

/// Whether symbol `k` is global or weak and has no name.
#[tactic(auto, unfolding(crate::specs::Symbol::is_nameless))]
fn is_nameless(table: &SymbolTable<'_>, k: usize, name: &str) -> bool
    requires within { k < symbol_count table.now }
    requires name { name.now ≡ name_of table.now k }
    ensures { result ≡ is_nameless table.now k }
{
    is_exported_entry(table.symbol(k)) && name.len() == 0
}

/// Whether symbol `k` is kept, local and undefined.
#[tactic(auto, unfolding(crate::specs::Symbol::is_local_undefined))]
fn is_local_undefined(table: &SymbolTable<'_>, k: usize) -> bool
    requires within { k < symbol_count table.now }
    ensures { result ≡ is_local_undefined table.now k }
{
    let entry = table.symbol(k);
    !table.is_left_out(k) && binding_of(entry) == LOCAL && entry.section == UNDEFINED
}

/// Whether the value of symbol `k` is past the size of its loaded section.
#[tactic(auto, unfolding(crate::specs::Symbol::is_past_section))]
fn is_past_section(table: &SymbolTable<'_>, k: usize) -> bool
    requires within { k < symbol_count table.now }
    ensures { result ≡ is_past_section table.now k }
{
    let entry = table.symbol(k);
    let section = entry.section as usize;
    table.is_in_section(k) && table.is_loaded(section) && table.section(section).size < entry.value
}

/// Whether symbol `k` breaks a rule that other symbols have no part in.
#[tactic(auto, unfolding(crate::specs::inner::Alone::is_bad_alone))]
fn is_bad_alone(table: &SymbolTable<'_>, k: usize) -> bool
    requires within { k < symbol_count table.now }
    ensures { result ≡ is_bad_alone table.now k }
{
    let Some(name) = table.name(k) else {
        return true;
    };
    is_bad_info(table, k)
        || is_bad_place(table, k)
        || is_nameless(table, k, name)
        || is_local_undefined(table, k)
        || is_past_section(table, k)
}

/// Adds the name that symbol `k` defines, if it defines one, to those that the symbols before it define; answers whether
/// it was there.
#[tactic(auto, unfolding(crate::specs::Symbol::defines, crate::specs::Symbol::is_second_definition))]
fn defines_again<'a>(
    table: &SymbolTable<'a>,
    k: usize,
    defined: &mut BTreeMap<&'a str, usize>,
) -> Result<bool, ElfFault>
    requires within { k < symbol_count table.now }
    requires named { is_well_named table.now k ≡ true }
    requires defined { (q : List ℕ) →
        is_some (get_by (λ key. slice_cmp nat_cmp q key.now) defined.old)
        ≡ some_below (defines table.now q) k }
    ensures same { IfOk result (λ again. again ≡ is_second_definition table.now k) }
    ensures ok { OnOk result ((q : List ℕ) →
        is_some (get_by (λ key. slice_cmp nat_cmp q key.now) defined.new)
        ≡ (some_below (defines table.now q) k || defines table.now q k)) }
    ensures memory { IfErr result (λ fault. fault ≡ Memory) }
{
    if table.is_definition_at(k) {
        if let Some(name) = table.name(k) {
            return Ok(defined.insert(name, k)?.is_some());
        }
    }
    Ok(false)
}

/// Whether symbol `k` breaks a rule, where `defined` has the names that the symbols before it define; of one that breaks
/// none its name is added.
#[tactic(auto, using(crate::proofs::SymbolLemmas::bad_symbol, crate::proofs::SymbolLemmas::good_alone))]
fn is_bad_symbol<'a>(
    table: &SymbolTable<'a>,
    k: usize,
    defined: &mut BTreeMap<&'a str, usize>,
) -> Result<bool, ElfFault>
    requires within { k < symbol_count table.now }
    requires defined { (q : List ℕ) →
        is_some (get_by (λ key. slice_cmp nat_cmp q key.now) defined.old)
        ≡ some_below (defines table.now q) k }
    ensures same { IfOk result (λ bad. bad ≡ is_bad_symbol table.now k) }
    ensures ok { IfOk result (λ bad. bad ≡ false → (q : List ℕ) →
        is_some (get_by (λ key. slice_cmp nat_cmp q key.now) defined.new)
        ≡ (some_below (defines table.now q) k || defines table.now q k)) }
    ensures memory { IfErr result (λ fault. fault ≡ Memory) }
{
    if is_bad_alone(table, k) {
        return Ok(true);
    }
    defines_again(table, k, defined)
}

/// Whether no symbol breaks a rule.
pub fn check_symbols(alloc: Global, table: &SymbolTable<'_>) -> Result<(), ElfFault>
    requires sections { HasSections table.now }
    ensures ok { IfOk result (λ _. HasSymbols table.now) }
    ensures fault { IfErr result (IsFirstFault table.now) }
{
    let mut defined = BTreeMap::new(alloc);
    for k in 0..table.count() {
        if is_bad_symbol(table, k, &mut defined)? {
            return Err(ElfFault::BadSymbol(k as u32));
        }
    }
    Ok(())
}

/// Whether no symbol is a common block.
#[tactic(auto, unfolding(crate::specs::Symbol::is_common))]
pub fn check_common(table: &SymbolTable<'_>) -> Result<(), ElfFault>
    requires kinds { HasKinds table.now }
    ensures ok { IfOk result (λ _. HasPlaces table.now) }
    ensures fault { IfErr result (IsFirstFault table.now) }
{
    for k in 0..table.count() {
        if table.symbol(k).section == COMMON {
            return Err(ElfFault::Common(k as u32));
        }
    }
    Ok(())
}
