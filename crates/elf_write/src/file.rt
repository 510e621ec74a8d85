ghost use Rattle.std.specs.Prelude.{◌≡◌, ◌+◌, ◌<◌, ◌^◌, ◌++◌, ◌==◌, if◌then◌else◌, length, take, OnOk, IfOk, All};
ghost use Rattle.std.specs.List.{flat_map};
ghost use Rattle.elf_read.specs.Places.{joined};
ghost use Rattle.elf_write.specs.declared.part.Part.TheVariants.{Null};
ghost use Rattle.elf_write.specs.Part.{section_name};
ghost use Rattle.elf_write.specs.Contents.{name_table, info_of};
ghost use Rattle.elf_write.specs.File.{sections_of, bytes_or_none, contents_of, padding, padded, body_of, link_of, info_of_part, name_place, part_header, header_of, file_header, IsWritable, bytes_of};

use crate::contents::{local_count, put_names, put_relas, put_symbols};
use crate::part::{Part, alignment_of, entry_size_of, flags_of, kind_of, parts_of, section_name};
use crate::word::{put_halves, put_words};
use cfi_values::Bytes;
use elf_read::{Area, ENTRY_SIZE, HEADER_SIZE, IDENT, MACHINE, Object, RELOCATABLE};
use std::alloc::{AllocError, Global};

/// Adds the names of sections.
fn put_section_names(out: &mut Vec<u8>, parts: &[Part]) -> Result<(), AllocError>
    ensures { OnOk result (out.new.items ≡ out.old.items ++ flat_map section_name parts.now) }
{
    for part in parts {
        out.extend_from_slice(section_name(*part))?;
    }
    Ok(())
}

/// Adds bytes where they are there.
fn put_bytes(out: &mut Vec<u8>, bytes: &Option<Bytes>) -> Result<(), AllocError>
    ensures { OnOk result (out.new.items ≡ out.old.items ++ bytes_or_none bytes.now) }
{
    match bytes {
        None => Ok(()),
        Some(bytes) => out.extend_from_slice(bytes.as_slice()),
    }
}

/// Adds what a section holds.
fn put_contents(
    out: &mut Vec<u8>,
    object: &Object,
    parts: &[Part],
    part: Part,
) -> Result<(), AllocError>
    requires parts { parts.now ≡ sections_of object.now }
    requires names { length (name_table object.now.symbols) < 2 ^ 32 }
    requires infos { All (λ reloc. info_of reloc < 2 ^ 32) object.now.relocs }
    ensures { OnOk result (out.new.items ≡ out.old.items ++ contents_of object.now part) }
{
    match part {
        Part::Null => Ok(()),
        Part::Text => out.extend_from_slice(object.text.as_slice()),
        Part::Data => out.extend_from_slice(object.static_data.as_slice()),
        Part::Types => put_bytes(out, &object.types),
        Part::Records => put_bytes(out, &object.records),
        Part::TextRelas => put_relas(out, Area::Text, object.relocs.as_slice()),
        Part::DataRelas => put_relas(out, Area::Data, object.relocs.as_slice()),
        Part::Symbols => put_symbols(out, object.symbols.as_slice()),
        Part::SymbolNames => put_names(out, object.symbols.as_slice()),
        Part::SectionNames => put_section_names(out, parts),
    }
}

/// Adds zeros after `size` bytes, up to the next multiple of 4.
#[tactic(auto, unfolding(crate::specs::File::padding))]
fn put_padding(out: &mut Vec<u8>, size: usize) -> Result<(), AllocError>
    ensures { OnOk result (out.new.items ≡ out.old.items ++ padding size) }
{
    let len = out.len();
    out.resize(len + (4 - size % 4) % 4, 0)
}

/// Adds what a section holds, up to the next multiple of 4, and says how many bytes it holds.
#[tactic(auto, unfolding(crate::specs::File::padded))]
fn put_padded(
    out: &mut Vec<u8>,
    object: &Object,
    parts: &[Part],
    part: Part,
) -> Result<usize, AllocError>
    requires parts { parts.now ≡ sections_of object.now }
    requires names { length (name_table object.now.symbols) < 2 ^ 32 }
    requires infos { All (λ reloc. info_of reloc < 2 ^ 32) object.now.relocs }
    ensures bytes { OnOk result
        (out.new.items ≡ out.old.items ++ padded (contents_of object.now part)) }
    ensures size { IfOk result (λ size. size ≡ length (contents_of object.now part)) }
{
    let begin = out.len();
    put_contents(out, object, parts, part)?;
    let size = out.len() - begin;
    put_padding(out, size)?;
    Ok(size)
}

/// The section that a section links to.
fn link_of(object: &Object, part: Part) -> u32
    ensures { result ≡ link_of object.now part }
{
    let extra = u32::from(object.types.is_some()) + u32::from(object.records.is_some());
    match part {
        Part::TextRelas | Part::DataRelas => 5 + extra,
        Part::Symbols => 6 + extra,
        _ => 0,
    }
}

/// The section that relocations change, and one more than the number of local symbols.
fn info_of_part(object: &Object, part: Part) -> u32
    requires symbols { length object.now.symbols + 1 < 2 ^ 32 }
    ensures { result ≡ info_of_part object.now part }
{
    match part {
        Part::TextRelas => 1,
        Part::DataRelas => 2,
        Part::Symbols => 1 + local_count(object.symbols.as_slice()) as u32,
        _ => 0,
    }
}

/// Adds the header of a section whose name and contents begin at these places.
#[tactic(auto, unfolding(crate::specs::File::part_header))]
fn put_header(
    out: &mut Vec<u8>,
    object: &Object,
    part: Part,
    name: u32,
    place: u32,
    size: u32,
) -> Result<(), AllocError>
    requires symbols { length object.now.symbols + 1 < 2 ^ 32 }
    requires size { size ≡ length (contents_of object.now part) }
    ensures { OnOk result
        (out.new.items ≡ out.old.items ++ part_header object.now part name place) }
{
    let words = [
        name,
        kind_of(part),
        flags_of(part),
        0,
        place,
        size,
        link_of(object, part),
        info_of_part(object, part),
        alignment_of(part),
        entry_size_of(part),
    ];
    put_words(out, &words)
}

/// Adds the header of a file with section headers from `table` on.
#[tactic(auto, unfolding(crate::specs::File::file_header))]
fn put_file_header(out: &mut Vec<u8>, table: u32, count: u16) -> Result<(), AllocError>
    requires some { 0 < count }
    ensures { OnOk result (out.new.items ≡ out.old.items ++ file_header table count) }
{
    out.extend_from_slice(&IDENT)?;
    out.extend_from_slice(&[0; 9])?;
    put_halves(out, &[RELOCATABLE, MACHINE])?;
    put_words(out, &[1, 0, 0, table, 0])?;
    put_halves(out, &[HEADER_SIZE as u16, 0, 0])?;
    put_halves(out, &[ENTRY_SIZE as u16, count, count - 1])
}

/// Adds section `k`: what it holds to the contents of those before it, its header to theirs.
fn put_part(
    body: &mut Vec<u8>,
    headers: &mut Vec<u8>,
    object: &Object,
    parts: &[Part],
    k: usize,
    name: u32,
) -> Result<(), AllocError>
    requires writable { IsWritable object.now }
    requires parts { parts.now ≡ sections_of object.now }
    requires within { k < length parts.now }
    requires before { body.old.items ≡ body_of object.now (take k parts.now) }
    requires name { name ≡ name_place object.now k }
    ensures body { OnOk result (body.new.items ≡ body_of object.now (take (k + 1) parts.now)) }
    ensures header { OnOk result (headers.new.items ≡ headers.old.items ++ header_of object.now k) }
{
    let part = parts[k];
    let place = place_after(body.len(), k);
    let size = put_padded(body, object, parts, part)?;
    put_header(headers, object, part, name, place, size as u32)
}

/// Where the contents of section `k` begin, after contents of `len` bytes.
fn place_after(len: usize, k: usize) -> u32
    requires small { HEADER_SIZE + len < 2 ^ 32 }
    ensures { result ≡ (if k == 0 then 0 else HEADER_SIZE + len) }
{
    if k == 0 {
        0
    } else {
        (HEADER_SIZE + len) as u32
    }
}

/// The contents of the sections, and their headers.
fn put_parts(
    alloc: Global,
    object: &Object,
    parts: &[Part],
) -> Result<(Vec<u8>, Vec<u8>), AllocError>
    requires writable { IsWritable object.now }
    requires parts { parts.now ≡ sections_of object.now }
    ensures body { IfOk result (λ made. made.0.items ≡ body_of object.now parts.now) }
    ensures headers { IfOk result (λ made.
        made.1.items ≡ joined (header_of object.now) (length parts.now)) }
{
    let mut body = Vec::new(alloc);
    let mut headers = Vec::new(alloc);
    let mut name = 0;
    for (k, part) in parts.iter().enumerate() {
        put_part(&mut body, &mut headers, object, parts, k, name)?;
        name += section_name(*part).len() as u32;
    }
    Ok((body, headers))
}

/// The bytes of the file.
#[tactic(auto, unfolding(crate::specs::File::bytes_of))]
fn file_of(alloc: Global, object: &Object, parts: &[Part]) -> Result<Vec<u8>, AllocError>
    requires writable { IsWritable object.now }
    requires parts { parts.now ≡ sections_of object.now }
    ensures { IfOk result (λ bytes. bytes.items ≡ bytes_of object.now) }
{
    let (body, headers) = put_parts(alloc, object, parts)?;
    let mut out = Vec::new(alloc);
    put_file_header(
        &mut out,
        (HEADER_SIZE + body.len()) as u32,
        parts.len() as u16,
    )?;
    out.extend_from_slice(body.as_slice())?;
    out.extend_from_slice(headers.as_slice())?;
    Ok(out)
}

/// The bytes of a relocatable ELF32 file for RISC-V that is this object.
///
/// The sections are `.text`, `.data`, `.cfi_types` and `.cfi_records` where they are there, `.rela.text`,
/// `.rela.data`, `.symtab`, `.strtab` and `.shstrtab`. Their contents and the section headers begin at multiples of
/// four. The size of the file, and the info of each relocation, are below 2^32. System V ELF; RISC-V ELF psABI.
pub fn write_object(alloc: Global, object: &Object) -> Result<Vec<u8>, AllocError>
    requires writable { IsWritable object.now }
    ensures ok { IfOk result (λ bytes. bytes.items ≡ bytes_of object.now) }
{
    let parts = parts_of(alloc, object.types.is_some(), object.records.is_some())?;
    file_of(alloc, object, parts.as_slice())
}
