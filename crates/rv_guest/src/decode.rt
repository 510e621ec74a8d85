// The opcode of a word, and the immediate of an operation.

ghost use Rattle.std.specs.Prelude.{◌≡◌, ◌<◌};
ghost use Rattle.std.specs.Int.{w32, cast_unsigned};
ghost use Rattle.rv_insn.specs.Fields.{imm_i_at};
ghost use Rattle.rv_insn.specs.Rows.{imm_funct7};
ghost use Rattle.rv_insn.specs.InsnOf.{insn_of, row_of, imm_value};

use rv_insn::ImmOp;
use rv_insn::fields::imm_i;

/// The opcode of a word, bits 0 to 6: the rows of the table are told by it.
#[inline(always)]
#[tactic(auto, unfolding(rv_insn::specs::InsnOf::insn_of))]
pub fn opcode_of(word: u32) -> u32
    ensures { insn_of word ≡ row_of result word }
{
    word % 128
}

/// The immediate of an operation, in 32 bits; a shift's is the field of rs2.
#[inline(always)]
pub fn imm_of(op: ImmOp, word: u32, rs2: u32) -> u32
    requires { rs2 < 32 }
    ensures { result ≡ cast_unsigned w32 (imm_value (imm_funct7 op) (imm_i_at word) rs2) }
{
    match op {
        ImmOp::Slli | ImmOp::Srli | ImmOp::Srai => rs2,
        _ => imm_i(word),
    }
}
