//! The fields of a word, read one by one: what a machine matches on before it acts, at the cost of a shift each.
//!
//! Every reader is total. `insn_of` of `specs/InsnOf.antt` is the instruction that the word is, in terms of these
//! (RISC-V Unprivileged ISA 20191213, 2.2 and 2.3).

ghost use Rattle.std.specs.Prelude.{◌≡◌, ℕ, ◌*◌, ◌^◌, ◌<◌};
ghost use Rattle.std.specs.Int.{cast_unsigned, w32};
ghost use Rattle.rv_insn.specs.Fields.{fields_at, imm_i_at, imm_s_at, imm_b_at, imm_u_at, imm_j_at, high_of, low_of};
ghost use Rattle.rv_insn.specs.Word.{IsSigned};
ghost use Rattle.rv_insn.specs.InsnOf.{insn_of, row_of};

/// The fields that each word has, whichever of them its form uses.
#[derive(Clone, Copy, Debug, PartialEq, Eq)]
pub struct Fields {
    /// Bits 0 to 6.
    pub opcode: u32,
    /// Bits 7 to 11.
    pub rd: u32,
    /// Bits 12 to 14.
    pub funct3: u32,
    /// Bits 15 to 19.
    pub rs1: u32,
    /// Bits 20 to 24.
    pub rs2: u32,
    /// Bits 25 to 31.
    pub funct7: u32,
}

/// The six fields of a word. With a known opcode, `row_of` computes to that opcode's row.
#[inline(always)]
pub fn fields_of(word: u32) -> Fields
    ensures fields { result ≡ fields_at word }
    ensures insn { insn_of word ≡ row_of result.opcode word }
{
    Fields {
        opcode: word % 128,
        rd: (word >> 7) % 32,
        funct3: (word >> 12) % 8,
        rs1: (word >> 15) % 32,
        rs2: (word >> 20) % 32,
        funct7: word >> 25,
    }
}

/// The immediate of form I, in 32 bits.
#[inline(always)]
pub fn imm_i(word: u32) -> u32
    ensures { result ≡ cast_unsigned w32 (imm_i_at word) }
{
    (word.cast_signed() >> 20).cast_unsigned()
}

/// The immediate of form S, in 32 bits.
#[inline(always)]
pub fn imm_s(word: u32) -> u32
    ensures { result ≡ cast_unsigned w32 (imm_s_at word) }
{
    ((word.cast_signed() >> 25).cast_unsigned() << 5) + (word >> 7) % 32
}

/// The offset of form B, in 32 bits.
#[inline(always)]
pub fn imm_b(word: u32) -> u32
    ensures { result ≡ cast_unsigned w32 (imm_b_at word) }
{
    ((word.cast_signed() >> 31).cast_unsigned() << 12)
        + 2 * ((word >> 8) % 16)
        + 32 * ((word >> 25) % 64)
        + 2048 * ((word >> 7) % 2)
}

/// The immediate of form U, bits 12 to 31 of the word.
#[inline(always)]
pub fn imm_u(word: u32) -> u32
    ensures { result ≡ imm_u_at word }
{
    word >> 12
}

/// What the immediate of form U stands for: the word with its low 12 bits cleared.
#[inline(always)]
pub fn upper(word: u32) -> u32
    ensures { result ≡ 2 ^ 12 * imm_u_at word }
{
    word - word % 4096
}

/// The offset of form J, in 32 bits.
#[inline(always)]
pub fn imm_j(word: u32) -> u32
    ensures { result ≡ cast_unsigned w32 (imm_j_at word) }
{
    ((word.cast_signed() >> 31).cast_unsigned() << 20)
        + 2 * ((word >> 21) % 1024)
        + 2048 * ((word >> 20) % 2)
        + 4096 * ((word >> 12) % 256)
}

/// The high 20 bits of a number, rounded for a low part that is added with its sign (RISC-V ELF psABI, `%hi`).
pub fn high_of(number: u32) -> u32
    ensures part { result ≡ high_of number }
    ensures fits { result < 2 ^ 20 }
{
    number.wrapping_add(1 << 11) >> 12
}

/// The low 12 bits of a number, read with their sign (RISC-V ELF psABI, `%lo`).
pub fn low_of(number: u32) -> i32
    ensures part { result ≡ low_of number }
    ensures fits { IsSigned (2 ^ 11) result }
{
    let low = (number % (1 << 12)).cast_signed();
    if low < 1 << 11 { low } else { low - (1 << 12) }
}
