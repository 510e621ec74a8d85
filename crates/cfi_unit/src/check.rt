ghost use Rattle.std.specs.Prelude.{◌≡◌, ◌^◌, ◌<◌, ℕ, pos, Bool, Some, IfSome};
ghost use Rattle.rv_insn.specs.declared.insn.Insn.TheVariants as insns;
ghost use Rattle.rv_insn.specs.Word.{IsSigned};
ghost use Rattle.rv_insn.specs.Insn.{word_of};
ghost use Rattle.cfi_unit.specs.declared.unit.Unit.TheVariants as units;
ghost use Rattle.cfi_unit.specs.Unit.{IsFree, IsUnit, words_of, size_of, high_insn, low_insn, link_register};
ghost use Rattle.cfi_unit.specs.Code.{BeginsAt};

use crate::free::begins_with;
use crate::unit::Unit;
use cfi_word::map::BARY;
use cfi_word::sizes::{CHECK_WORDS, SLOTS};
use rv_insn::fields::{imm_i, upper};
use rv_insn::{ImmOp, Insn, encode};

/// The words of a check: the target into x31, its range test, the two IDs and their comparison, the retry, the halt and
/// the jump.
pub fn words_by(link: bool, rs1: u32, imm: i32, slot: u32) -> [u32; CHECK_WORDS]
    requires fits { IsUnit (units.Check link rs1 imm slot) }
    ensures { result ≡ words_of (units.Check link rs1 imm slot) }
{
    let target = Insn::OpImm {
        op: ImmOp::Addi,
        rd: 31,
        rs1,
        imm,
    };
    let address = BARY + 4 * slot;
    let high = (address + 2048) >> 12;
    let low = address % 4096;
    [
        encode(&target),
        0x012fdf13, // srli x30,x31,18
        0x020f1463, // bne x30,x0,.+40
        0x00000e37 + (high << 12), // lui x28,%hi(address)
        0x000e2e83 + (low << 20), // lw x29,%lo(address)(x28)
        0x10000f37, // lui x30,0x10000
        0x01ff0f33, // add x30,x30,x31
        0x000f2f03, // lw x30,0(x30)
        0x01ee8a63, // beq x29,x30,.+20
        0x01df4f33, // xor x30,x30,x29
        0x010f1f13, // slli x30,x30,16
        0xfe0f10e3, // bne x30,x0,.-32
        0x00100073, // ebreak
        0x000f8067 + (u32::from(link) << 7), // jalr rd,0(x31)
    ]
}

// The slot that words 3 and 4 of a check address, and any number where they address none.
fn slot_of(high: u32, low: u32) -> u32
    ensures { (slot : ℕ) → slot < SLOTS → high ≡ word_of (high_insn slot) →
        low ≡ word_of (low_insn slot) → result ≡ slot }
{
    upper(high).wrapping_add(imm_i(low)).wrapping_sub(BARY) / 4
}

// Whether the last word of a check links.
fn link_of(last: u32) -> bool
    ensures { (link : Bool) → last ≡ word_of (insns.Jalr (link_register link) 31 (pos 0)) →
        result ≡ link }
{
    (last >> 7) % 2 == 1
}

/// The check of a register and an immediate that the words begin with.
pub fn unit_of(words: &[u32], rs1: u32, imm: i32) -> Option<Unit>
    requires free { IsFree rs1 }
    requires short { IsSigned (2 ^ 11) imm }
    ensures some { IfSome result (λ unit. BeginsAt words.now 0 unit) }
    ensures size { IfSome result (λ unit. size_of unit ≡ CHECK_WORDS) }
    ensures only { (link : Bool) (slot : ℕ) → BeginsAt words.now 0 (units.Check link rs1 imm slot) →
        result ≡ Some (units.Check link rs1 imm slot) }
{
    if words.len() < CHECK_WORDS {
        return None;
    }
    let slot = slot_of(words[3], words[4]);
    if slot >= SLOTS {
        return None;
    }
    let link = link_of(words[13]);
    if begins_with(words, &words_by(link, rs1, imm, slot)) {
        Some(Unit::Check {
            link,
            rs1,
            imm,
            slot,
        })
    } else {
        None
    }
}
