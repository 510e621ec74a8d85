//! The text of an instruction.

ghost use Rattle.std.specs.Prelude.{◌≡◌, ◌++◌, ◌+◌, ◌<◌, OnOk, OnErr, string_bytes};
ghost use Rattle.rv_insn.specs.Insn.{InRange};
ghost use Rattle.rv_text.specs.Text.{IsNoFence, text_of, word_text, word_number, fence_text, upper_text, jump_text, branch_text, place_text, immediate_text, registers_text};

use crate::names::{cond_name, imm_op_name, load_name, op_name, store_name};
use cfi_text::put_hex8;
use rv_insn::{Insn, decode, opcode};
use std::alloc::AllocError;
use std::fmt;

/// The word of `fence iorw,iorw`, which alone is printed as `fence`.
pub const FULL_FENCE: u32 = 0x0ff0_000f;

// Where an offset leads, as text.
#[derive(Drop)]
struct Target(i32);

impl fmt::Display for Target {
    ghost use Rattle.std.specs.Prelude.{Some};
    ghost use Rattle.rv_text.specs.Text.{offset_text};

    ghost output = { λ target. Some (offset_text target.0) };

    fn fmt<W: fmt::Write>(&self, f: &mut fmt::Formatter<W>) -> fmt::Result {
        let bytes = self.0.unsigned_abs();
        if self.0 < 0 {
            write!(f, ".-{bytes}")
        } else {
            write!(f, ".+{bytes}")
        }
    }
}

// The forms of the operands: each appends a mnemonic and them.
fn put_upper(text: &mut String, name: &str, rd: u32, imm: u32) -> Result<(), AllocError>
    ensures { OnOk result
        (string_bytes text.new ≡ string_bytes text.old ++ upper_text name.now rd imm) }
{
    write!(text, "{name} x{rd},0x{imm:x}")
}

fn put_jump(text: &mut String, rd: u32, off: i32) -> Result<(), AllocError>
    ensures { OnOk result (string_bytes text.new ≡ string_bytes text.old ++ jump_text rd off) }
{
    let target = Target(off);
    write!(text, "jal x{rd},{target}")
}

fn put_branch(text: &mut String, name: &str, rs1: u32, rs2: u32, off: i32) -> Result<(), AllocError>
    ensures { OnOk result
        (string_bytes text.new ≡ string_bytes text.old ++ branch_text name.now rs1 rs2 off) }
{
    let target = Target(off);
    write!(text, "{name} x{rs1},x{rs2},{target}")
}

fn put_place(
    text: &mut String,
    name: &str,
    register: u32,
    base: u32,
    imm: i32,
) -> Result<(), AllocError>
    ensures { OnOk result
        (string_bytes text.new ≡ string_bytes text.old ++ place_text name.now register base imm) }
{
    write!(text, "{name} x{register},{imm}(x{base})")
}

fn put_immediate(
    text: &mut String,
    name: &str,
    rd: u32,
    rs1: u32,
    imm: i32,
) -> Result<(), AllocError>
    ensures { OnOk result
        (string_bytes text.new ≡ string_bytes text.old ++ immediate_text name.now rd rs1 imm) }
{
    write!(text, "{name} x{rd},x{rs1},{imm}")
}

fn put_registers(
    text: &mut String,
    name: &str,
    rd: u32,
    rs1: u32,
    rs2: u32,
) -> Result<(), AllocError>
    ensures { OnOk result
        (string_bytes text.new ≡ string_bytes text.old ++ registers_text name.now rd rs1 rs2) }
{
    write!(text, "{name} x{rd},x{rs1},x{rs2}")
}

// Appends the text of an instruction that is no fence.
fn put_row(text: &mut String, insn: &Insn) -> Result<(), AllocError>
    requires { IsNoFence insn.now }
    ensures { OnOk result (string_bytes text.new ≡ string_bytes text.old ++ text_of insn.now) }
{
    match *insn {
        Insn::Lui { rd, imm } => put_upper(text, "lui", rd, imm),
        Insn::Auipc { rd, imm } => put_upper(text, "auipc", rd, imm),
        Insn::Jal { rd, off } => put_jump(text, rd, off),
        Insn::Jalr { rd, rs1, imm } => put_place(text, "jalr", rd, rs1, imm),
        Insn::Branch {
            cond,
            rs1,
            rs2,
            off,
        } => put_branch(text, cond_name(cond), rs1, rs2, off),
        Insn::Load { kind, rd, rs1, imm } => put_place(text, load_name(kind), rd, rs1, imm),
        Insn::Store {
            kind,
            rs1,
            rs2,
            imm,
        } => put_place(text, store_name(kind), rs2, rs1, imm),
        Insn::OpImm { op, rd, rs1, imm } => put_immediate(text, imm_op_name(op), rd, rs1, imm),
        Insn::Op { op, rd, rs1, rs2 } => put_registers(text, op_name(op), rd, rs1, rs2),
        Insn::Fence { .. } => unreachable!(),
        Insn::Ecall => text.push_str("ecall"),
        Insn::Ebreak => text.push_str("ebreak"),
    }
}

// Appends a word as a number.
fn put_number(out: &mut Vec<u8>, word: u32) -> Result<(), AllocError>
    ensures { OnOk result (out.new.items ≡ out.old.items ++ word_number word) }
{
    out.extend_from_slice(b".word 0x")?;
    put_hex8(out, word)
}

// Appends the text of a fence, given by its word.
fn put_fence(out: &mut Vec<u8>, word: u32) -> Result<(), AllocError>
    ensures { OnOk result (out.new.items ≡ out.old.items ++ fence_text word) }
{
    if word == FULL_FENCE {
        out.extend_from_slice(b"fence")
    } else {
        put_number(out, word)
    }
}

// Appends the text of an instruction.
fn put_insn(out: &mut Vec<u8>, insn: &Insn) -> Result<(), AllocError>
    requires { InRange insn.now }
    ensures { OnOk result (out.new.items ≡ out.old.items ++ text_of insn.now) }
{
    if let Insn::Fence { fields } = *insn {
        return put_fence(out, opcode::FENCE + fields);
    }
    let mut text = String::new(*out.allocator());
    put_row(&mut text, insn)?;
    out.extend_from_slice(text.as_bytes())
}

/// Appends the text of a word: its instruction's, or `.word 0x` and eight digits where it is none.
pub fn put_word(out: &mut Vec<u8>, word: u32) -> Result<(), AllocError>
    ensures { OnOk result (out.new.items ≡ out.old.items ++ word_text word) }
{
    match decode(word) {
        Some(insn) => put_insn(out, &insn),
        None => put_number(out, word),
    }
}

/// Appends the text of an instruction whose fields are in range, as the RISC-V manual spells it.
///
/// Registers are x0 to x31, immediates signed decimal, upper immediates `0x` and hexadecimal, offsets
/// `.+N` or `.-N`. A fence other than `fence iorw,iorw` is `.word 0x` and the eight digits of its
/// word. Where memory is wanting, nothing is appended.
pub fn print(insn: &Insn, out: &mut Vec<u8>) -> Result<(), AllocError>
    requires { InRange insn.now }
    ensures ok { OnOk result (out.new.items ≡ out.old.items ++ text_of insn.now) }
    ensures err { OnErr result (out.new.items ≡ out.old.items) }
{
    let mut text = Vec::new(*out.allocator());
    put_insn(&mut text, insn)?;
    out.extend_from_slice(&text)
}
