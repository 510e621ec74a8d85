ghost use Rattle.std.specs.Prelude.{◌≡◌, ◌≤◌};
ghost use Rattle.elf_read.specs.Relocation.{is_dropped, is_of_data, is_of_pair, is_of_instruction, is_known, field_size};

/// Bytes of a relocation with its addend.
pub const RELA_SIZE: usize = 12;

/// No relocation.
pub const NONE: u32 = 0;
/// A word: S + A.
pub const WORD: u32 = 1;
/// The immediate of a branch: S + A - P.
pub const BRANCH: u32 = 16;
/// The immediate of JAL: S + A - P.
pub const JAL: u32 = 17;
/// The immediates of AUIPC and of the JALR after it: S + A - P.
pub const CALL: u32 = 18;
/// As `CALL`, through a table of calls.
pub const CALL_PLT: u32 = 19;
/// The immediate of AUIPC: the high part of S + A - P.
pub const PCREL_HI20: u32 = 23;
/// An I immediate: the low part of what the pair's `PCREL_HI20` has.
pub const PCREL_LO12_I: u32 = 24;
/// An S immediate: the same.
pub const PCREL_LO12_S: u32 = 25;
/// The immediate of LUI: the high part of S + A.
pub const HI20: u32 = 26;
/// An I immediate: the low part of S + A.
pub const LO12_I: u32 = 27;
/// An S immediate: the same.
pub const LO12_S: u32 = 28;
/// A word plus S + A.
pub const ADD32: u32 = 35;
/// A word minus S + A.
pub const SUB32: u32 = 39;
/// Padding for alignment.
pub const ALIGN: u32 = 43;
/// Instructions that a linker may shorten.
pub const RELAX: u32 = 51;

/// One relocation of a section.
#[derive(Clone, Copy)]
pub struct Rela {
    /// r_offset: where its field begins in its section.
    pub offset: u32,
    /// r_info: the symbol's number times 256, and the kind.
    pub info: u32,
    /// r_addend, as 32 bits.
    pub addend: u32,
}

/// Whether a relocation of this kind changes nothing, and is dropped.
pub fn is_dropped(kind: u32) -> bool
    ensures { result ≡ is_dropped kind }
{
    kind == NONE || kind == ALIGN || kind == RELAX
}

/// Whether a relocation of this kind changes a word of data.
pub fn is_of_data(kind: u32) -> bool
    ensures { result ≡ is_of_data kind }
{
    kind == WORD || kind == ADD32 || kind == SUB32
}

/// Whether a relocation of this kind changes two instructions.
pub fn is_of_pair(kind: u32) -> bool
    ensures { result ≡ is_of_pair kind }
{
    kind == CALL || kind == CALL_PLT
}

/// Whether a relocation of this kind changes instructions.
#[tactic(auto, unfolding(crate::specs::Relocation::is_of_instruction))]
pub fn is_of_instruction(kind: u32) -> bool
    ensures { result ≡ is_of_instruction kind }
{
    is_of_pair(kind)
        || kind == BRANCH
        || kind == JAL
        || kind == PCREL_HI20
        || kind == PCREL_LO12_I
        || kind == PCREL_LO12_S
        || kind == HI20
        || kind == LO12_I
        || kind == LO12_S
}

/// Whether the kind is one of the table.
#[tactic(auto, unfolding(crate::specs::Relocation::is_known))]
pub fn is_known(kind: u32) -> bool
    ensures { result ≡ is_known kind }
{
    is_dropped(kind) || is_of_data(kind) || is_of_instruction(kind)
}

/// How many bytes the field of a relocation of this kind has.
#[tactic(auto, unfolding(crate::specs::Relocation::field_size))]
pub fn field_size(kind: u32) -> usize
    ensures same { result ≡ field_size kind }
    ensures small { result ≤ 8 }
{
    if is_of_pair(kind) {
        8
    } else if is_dropped(kind) {
        0
    } else {
        4
    }
}
