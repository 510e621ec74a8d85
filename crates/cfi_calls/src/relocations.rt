//! Relocations, and the words that a linker makes by them.
//!
//! GNU ld 2.40: `riscv64-unknown-elf-ld -melf32lriscv --no-relax -Ttext=0x100000 -Tdata=0x400000`, with a `--defsym`
//! for each value.

use elf_read::{Area, Reloc, relocation as kinds};
use rv_reloc::{RelocFault, apply};

// Applies a relocation at the start of the bytes; none where no such one fits there.
fn relocate(
    bytes: &mut [u8],
    kind: u32,
    at: u32,
    value: u32,
    partner: Option<u32>,
) -> Option<Result<(), RelocFault>> {
    if !kinds::is_known(kind) || kinds::field_size(kind) > bytes.len() {
        return None;
    }
    let reloc = Reloc {
        area: Area::Text,
        offset: 0,
        kind,
        symbol: None,
        addend: 0,
    };
    Some(apply(bytes, &reloc, at, value, partner))
}

// A kind, the word before, the field's address, the symbol's value, the partner and the word after.
type WordRow = (u32, u32, u32, u32, Option<u32>, u32);

fn makes(row: WordRow) -> bool {
    let (kind, before, at, value, partner, after) = row;
    let mut bytes = u32::to_le_bytes(before);
    let answer = relocate(&mut bytes, kind, at, value, partner);
    answer == Some(Ok(())) && u32::from_le_bytes(bytes) == after
}

// Upper and lower parts of an offset from the relocation's own address.
fn relative_words() -> bool {
    let near = Some(0x7e8);
    let far = Some(0x7fff_ffdf);
    makes((
        kinds::PCREL_HI20,
        0x00000297,
        0x100028,
        0x00100810,
        None,
        0x00000297,
    )) && makes((
        kinds::PCREL_LO12_I,
        0x00028293,
        0x10002c,
        0x00100028,
        near,
        0x7e828293,
    )) && makes((
        kinds::PCREL_LO12_I,
        0x0002a303,
        0x100030,
        0x00100028,
        near,
        0x7e82a303,
    )) && makes((
        kinds::PCREL_LO12_S,
        0x0062a023,
        0x100034,
        0x00100028,
        near,
        0x7e62a423,
    )) && makes((
        kinds::PCREL_HI20,
        0x00000297,
        0x100038,
        0x80100017,
        None,
        0x80000297,
    )) && makes((
        kinds::PCREL_LO12_I,
        0x00028293,
        0x10003c,
        0x00100038,
        far,
        0xfdf28293,
    )) && makes((
        kinds::PCREL_LO12_S,
        0x00628023,
        0x100040,
        0x00100038,
        far,
        0xfc628fa3,
    ))
}

// Upper and lower parts of an address, whole words, sums and differences.
fn absolute_words() -> bool {
    makes((
        kinds::HI20,
        0x000002b7,
        0x100044,
        0x40000800,
        None,
        0x400012b7,
    )) && makes((
        kinds::LO12_I,
        0x00028293,
        0x100048,
        0x40000800,
        None,
        0x80028293,
    )) && makes((
        kinds::LO12_S,
        0x0062a023,
        0x10004c,
        0x40000800,
        None,
        0x8062a023,
    )) && makes((
        kinds::WORD,
        0x00000000,
        0x400000,
        0x40000800,
        None,
        0x40000800,
    )) && makes((
        kinds::ADD32,
        0x00000100,
        0x400008,
        0x400007ff,
        None,
        0x400008ff,
    )) && makes((
        kinds::SUB32,
        0x00000100,
        0x40000c,
        0x400007ff,
        None,
        0xbffff901,
    )) && makes((
        kinds::NONE,
        0x00000100,
        0x400010,
        0x400007ff,
        None,
        0x00000100,
    ))
}

/// Relocations of one word.
pub fn words() -> bool {
    relative_words() && absolute_words()
}

// Whether auipc x1,0 and jalr x1,0(x1) become these words, by the symbol's value and the field's address.
fn makes_pair(kind: u32, value: u32, at: u32, high: u32, low: u32) -> bool {
    let mut bytes = [0x97, 0, 0, 0, 0xe7, 0x80, 0, 0];
    let answer = relocate(&mut bytes, kind, at, value, None);
    let [a, b, c, d, e, f, g, h] = bytes;
    answer == Some(Ok(()))
        && u32::from_le_bytes([a, b, c, d]) == high
        && u32::from_le_bytes([e, f, g, h]) == low
}

/// Relocations of a call's two words.
pub fn pairs() -> bool {
    makes_pair(kinds::CALL, 0x00100810, 0x100010, 0x00001097, 0x800080e7)
        && makes_pair(
            kinds::CALL_PLT,
            0x80100017,
            0x100018,
            0x80000097,
            0xfff080e7,
        )
        && makes_pair(
            kinds::CALL_PLT,
            0x00000000,
            0x100020,
            0xfff00097,
            0xfe0080e7,
        )
}
