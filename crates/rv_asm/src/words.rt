//! The words of the statements of text.

ghost use Rattle.std.specs.Prelude.{◌≡◌, ◌++◌, ◌^◌, ◌<◌, ◌≤◌, OnOk, IfSome};
ghost use Rattle.rv_insn.specs.Fields.{signed};
ghost use Rattle.rv_insn.specs.Insn.{InRange, IsShift, IsImmOf};
ghost use Rattle.rv_insn.specs.Rows.{imm_funct7};
ghost use Rattle.rv_insn.specs.Word.{IsSigned, IsEven};
ghost use Rattle.rv_insn.specs.declared.insn.ImmOp.TheVariants.{Addi};
ghost use Rattle.rv_insn.specs.declared.insn.Insn.TheVariants as insns;
ghost use Rattle.rv_asm.specs.Words.{words_bytes, size_of, low_word, signed_field, offset_field, low_field, shift_field, imm_field, high_field, one, li_words, pair};

use rv_insn::fields::{high_of, low_of};
use rv_insn::{ImmOp, Insn, encode};
use rv_line::{High, Low, Register};
use std::alloc::AllocError;

/// One word or two.
#[derive(Clone, Copy)]
pub enum Words {
    /// One.
    One(u32),
    /// Two, in this order.
    Two(u32, u32),
}

impl Words {
    ghost use Rattle.std.specs.Prelude.{◌≡◌, ◌≤◌, ◌++◌, OnOk};
    ghost use Rattle.rv_asm.specs.Words.{words_bytes, size_of};

    /// How many bytes they have.
    pub fn size(self) -> u32
        ensures same { result ≡ size_of self }
        ensures small { result ≤ 8 }
    {
        match self {
            Words::One(_) => 4,
            Words::Two(_, _) => 8,
        }
    }

    /// Appends their bytes, each word's lowest first.
    pub fn put(self, out: &mut Vec<u8>) -> Result<(), AllocError>
        ensures { OnOk result (out.new.items ≡ out.old.items ++ words_bytes self) }
    {
        match self {
            Words::One(first) => out.extend_from_slice(&first.to_le_bytes()),
            Words::Two(first, second) => {
                out.extend_from_slice(&first.to_le_bytes())?;
                out.extend_from_slice(&second.to_le_bytes())
            }
        }
    }
}

/// The low 32 bits of a number.
pub fn low_word(number: i64) -> u32
    ensures { result ≡ low_word number }
{
    if number < 0 {
        u32::MAX - ((-1 - number) % 4294967296) as u32
    } else {
        (number % 4294967296) as u32
    }
}

/// A number as a signed field of 12 bits. `None` where it has more.
pub fn signed_field(number: i64) -> Option<i32>
    ensures same { result ≡ signed_field (2 ^ 11) number }
    ensures fits { IfSome result (IsSigned (2 ^ 11)) }
{
    if -2048 <= number && number < 2048 {
        Some(number as i32)
    } else {
        None
    }
}

/// An offset of a branch, of 13 bits, of which the lowest is 0. `None` where it is odd or has more bits.
pub fn branch_field(number: i64) -> Option<i32>
    ensures same { result ≡ offset_field (2 ^ 12) number }
    ensures fits { IfSome result (IsSigned (2 ^ 12)) }
    ensures even { IfSome result IsEven }
{
    if -4096 <= number && number < 4096 && number % 2 == 0 {
        Some(number as i32)
    } else {
        None
    }
}

/// An offset of a jump, of 21 bits, of which the lowest is 0. `None` where it is odd or has more bits.
pub fn jump_field(number: i64) -> Option<i32>
    ensures same { result ≡ offset_field (2 ^ 20) number }
    ensures fits { IfSome result (IsSigned (2 ^ 20)) }
    ensures even { IfSome result IsEven }
{
    if -1048576 <= number && number < 1048576 && number % 2 == 0 {
        Some(number as i32)
    } else {
        None
    }
}

/// An immediate of 12 bits; what a relocation fills in is 0. `None` where a number has more.
pub fn low_field(imm: &Low) -> Option<i32>
    ensures same { result ≡ low_field imm.now }
    ensures fits { IfSome result (IsSigned (2 ^ 11)) }
{
    match imm {
        Low::Number(number) => signed_field(*number),
        Low::Lo(_) | Low::PcrelLo(_) => Some(0),
    }
}

// The places of a shift.
fn shift_field(imm: &Low) -> Option<i32>
    ensures same { result ≡ shift_field imm.now }
    ensures fits { IfSome result IsShift }
{
    match imm {
        Low::Number(number) if 0 <= *number && *number < 32 => Some(*number as i32),
        Low::Number(_) => None,
        Low::Lo(_) | Low::PcrelLo(_) => Some(0),
    }
}

/// The immediate of an operation; that of a shift is from 0 to 31. `None` where a number is none.
pub fn imm_field(op: ImmOp, imm: &Low) -> Option<i32>
    ensures same { result ≡ imm_field op imm.now }
    ensures fits { IfSome result (IsImmOf (imm_funct7 op)) }
{
    match op {
        ImmOp::Slli | ImmOp::Srli | ImmOp::Srai => shift_field(imm),
        _ => low_field(imm),
    }
}

/// An immediate of 20 bits; what a relocation fills in is 0. `None` where a number has more or is negative.
pub fn high_field(imm: &High) -> Option<u32>
    ensures same { result ≡ high_field imm.now }
    ensures fits { IfSome result (λ field. field < 2 ^ 20) }
{
    match imm {
        High::Number(number) if 0 <= *number && *number < 1048576 => Some(*number as u32),
        High::Number(_) => None,
        High::Hi(_) | High::PcrelHi(_) => Some(0),
    }
}

/// The word of an instruction.
pub fn one(insn: Insn) -> Words
    requires { InRange insn }
    ensures { result ≡ one insn }
{
    Words::One(encode(&insn))
}

// A word as a signed number.
fn signed_word(word: u32) -> i32
    ensures { result ≡ signed (2 ^ 31) word }
{
    if word < 2147483648 {
        word as i32
    } else {
        -1 - (u32::MAX - word) as i32
    }
}

/// The words of `li`: a number as a word in a register.
#[tactic(auto, unfolding(crate::specs::Words::li_words))]
pub fn li_words(rd: Register, word: u32) -> Words
    ensures { result ≡ li_words rd word }
{
    let signed = signed_word(word);
    let rd = rd.number();
    if -2048 <= signed && signed < 2048 {
        return one(add(rd, 0, signed));
    }
    let high = Insn::Lui {
        rd,
        imm: high_of(word),
    };
    if word % 4096 == 0 {
        return one(high);
    }
    Words::Two(encode(&high), encode(&add(rd, rd, low_of(word))))
}

// `addi`.
fn add(rd: u32, rs1: u32, imm: i32) -> Insn
    ensures { result ≡ insns.OpImm Addi rd rs1 imm }
{
    Insn::OpImm {
        op: ImmOp::Addi,
        rd,
        rs1,
        imm,
    }
}

/// `auipc` of a register, and an instruction on it.
pub fn pair(register: u32, insn: Insn) -> Words
    requires register { register < 32 }
    requires insn { InRange insn }
    ensures { result ≡ pair register insn }
{
    let high = Insn::Auipc {
        rd: register,
        imm: 0,
    };
    Words::Two(encode(&high), encode(&insn))
}
