ghost use Rattle.std.specs.Prelude.{◌≡◌, ◌<◌, ◌==◌, ℕ, nat_lt, drop, IfOk, IfErr};
ghost use Rattle.std.specs.List.{list_any};
ghost use Rattle.elf_read.specs.Header.{section_count};
ghost use Rattle.elf_read.specs.Section.{section_names};
ghost use Rattle.elf_read.specs.BadSection.{is_refused, is_bad_text, is_misaligned, is_second, is_bad_symbol_table, is_bad_target, is_bad_rela, is_named, is_bad_section};
ghost use Rattle.elf_read.specs.Fault.{IsFirstFault, HasContents, HasSections};
ghost use Rattle.elf_read.specs.declared.section.TheConstants.{CFI_TYPES, CFI_RECORDS};

use crate::fault::ElfFault;
use crate::relocation::RELA_SIZE;
use crate::section::{
    ALLOC, CFI_RECORDS, CFI_TYPES, INIT_ARRAY, NOBITS, PREINIT_ARRAY, REL, RELA, STRTAB, SYMTAB,
    TLS,
};
use crate::sections::Sections;
use crate::symbol::SYMBOL_SIZE;

/// The number of bytes up to the last zero byte and with it, 0 where there is none.
pub fn ended_bytes(names: &[u8]) -> usize
    ensures { (i : ℕ) → list_any (λ byte. byte == 0) (drop i names.now) ≡ nat_lt i result }
{
    let mut end = names.len();
    while end > 0 && names[end - 1] != 0 {
        end -= 1;
    }
    end
}

/// Whether section `k` has ALLOC and is thread-local or an array of functions.
#[tactic(auto, unfolding(crate::specs::BadSection::is_refused))]
fn is_refused(sections: &Sections<'_>, k: usize) -> bool
    requires within { k < section_count sections.now }
    ensures { result ≡ is_refused sections.now k }
{
    let section = sections.file.section(k);
    section.flags & ALLOC != 0
        && (section.flags & TLS != 0
            || (INIT_ARRAY <= section.kind && section.kind <= PREINIT_ARRAY))
}

/// Whether section `k` is text without bytes in the file, or not of whole words.
#[tactic(auto, unfolding(crate::specs::BadSection::is_bad_text))]
fn is_bad_text(sections: &Sections<'_>, k: usize) -> bool
    requires within { k < section_count sections.now }
    ensures { result ≡ is_bad_text sections.now k }
{
    let section = sections.file.section(k);
    sections.file.is_text(k) && (section.kind == NOBITS || section.size % 4 != 0)
}

/// Whether section `k` is kept and its alignment is neither 0 nor a power of two.
#[tactic(auto, unfolding(crate::specs::BadSection::is_misaligned))]
fn is_misaligned(sections: &Sections<'_>, k: usize) -> bool
    requires within { k < section_count sections.now }
    ensures { result ≡ is_misaligned sections.now k }
{
    let section = sections.file.section(k);
    sections.is_kept(k) && section.alignment != 0 && !section.alignment.is_power_of_two()
}

/// Whether section `k` is a second section of the types' name.
#[tactic(auto, unfolding(crate::specs::BadSection::is_second))]
fn is_second_types(sections: &Sections<'_>, k: usize) -> bool
    requires within { k < section_count sections.now }
    ensures { result ≡ is_second sections.now CFI_TYPES.now k }
{
    sections.file.has_name(k, CFI_TYPES) && sections.types < k
}

/// Whether section `k` is a second section of the records' name.
#[tactic(auto, unfolding(crate::specs::BadSection::is_second))]
fn is_second_records(sections: &Sections<'_>, k: usize) -> bool
    requires within { k < section_count sections.now }
    ensures { result ≡ is_second sections.now CFI_RECORDS.now k }
{
    sections.file.has_name(k, CFI_RECORDS) && sections.records < k
}

/// Whether section `k` is a symbol table whose size or whose names are wrong.
#[tactic(auto, unfolding(crate::specs::BadSection::is_bad_symbol_table))]
fn is_bad_symbol_table(sections: &Sections<'_>, k: usize) -> bool
    requires within { k < section_count sections.now }
    ensures { result ≡ is_bad_symbol_table sections.now k }
{
    let section = sections.file.section(k);
    section.kind == SYMTAB
        && (section.size as usize % SYMBOL_SIZE != 0
            || !sections.has_kind(STRTAB, section.link as usize))
}

/// Whether section `k` has relocations of what none may have.
#[tactic(auto, unfolding(crate::specs::BadSection::is_bad_target))]
fn is_bad_target(sections: &Sections<'_>, k: usize) -> bool
    requires within { k < section_count sections.now }
    ensures { result ≡ is_bad_target sections.now k }
{
    let section = sections.file.section(k);
    let target = section.info as usize;
    target < sections.count()
        && (((section.kind == RELA || section.kind == REL)
            && (sections.is_types(target) || sections.is_records(target)))
            || (section.kind == REL && sections.file.is_loaded(target)))
}

/// Whether section `k` has kept relocations, and its size or its symbol table is wrong.
#[tactic(auto, unfolding(crate::specs::BadSection::is_bad_rela))]
fn is_bad_rela(sections: &Sections<'_>, k: usize) -> bool
    requires within { k < section_count sections.now }
    ensures { result ≡ is_bad_rela sections.now k }
{
    let section = sections.file.section(k);
    sections.is_rela(k)
        && (section.size as usize % RELA_SIZE != 0
            || !sections.has_symbols()
            || section.link as usize != sections.table)
}

/// Whether the name of section `k` is ended, where names are ended before place `ended`.
#[tactic(auto, unfolding(crate::specs::BadSection::is_named))]
fn is_named(sections: &Sections<'_>, ended: usize, k: usize) -> bool
    requires within { k < section_count sections.now }
    requires ended { (i : ℕ) →
        list_any (λ byte. byte == 0) (drop i (section_names sections.now)) ≡ nat_lt i ended }
    ensures { result ≡ is_named sections.now k }
{
    let start = sections.file.section(k).name as usize;
    start < ended
}

/// Whether section `k` breaks a rule.
#[tactic(auto, unfolding(crate::specs::BadSection::is_bad_section))]
fn is_bad_section(sections: &Sections<'_>, ended: usize, k: usize) -> bool
    requires within { k < section_count sections.now }
    requires ended { (i : ℕ) →
        list_any (λ byte. byte == 0) (drop i (section_names sections.now)) ≡ nat_lt i ended }
    ensures { result ≡ is_bad_section sections.now k }
{
    is_refused(sections, k)
        || is_bad_text(sections, k)
        || is_misaligned(sections, k)
        || is_second_types(sections, k)
        || is_second_records(sections, k)
        || is_bad_symbol_table(sections, k)
        || is_bad_target(sections, k)
        || is_bad_rela(sections, k)
        || !is_named(sections, ended, k)
}

/// Whether no section breaks a rule.
pub fn check_sections(sections: &Sections<'_>) -> Result<(), ElfFault>
    requires contents { HasContents sections.now }
    ensures ok { IfOk result (λ _. HasSections sections.now) }
    ensures fault { IfErr result (IsFirstFault sections.now) }
{
    let ended = ended_bytes(sections.file.names());
    for k in 0..sections.count() {
        if is_bad_section(sections, ended, k) {
            return Err(ElfFault::BadSection(k as u32));
        }
    }
    Ok(())
}
