//! What the keywords of a source name.

ghost use Rattle.std.specs.Prelude.{◌≡◌};
ghost use Rattle.rv_line.specs.Keyword.{called, mnemonic_text, mnemonics, short_text, shorts, directive_text, directives, node_kind_text, node_kinds};

use crate::statement::NodeKind;
use crate::table::found_in;
use rv_insn::{Cond, ImmOp, LoadKind, Op, StoreKind};

/// What a mnemonic of the manual names.
#[derive(Clone, Copy)]
pub enum Mnemonic {
    /// An operation on two registers.
    Op(Op),
    /// An operation on a register and an immediate.
    OpImm(ImmOp),
    /// A load.
    Load(LoadKind),
    /// A store.
    Store(StoreKind),
    /// A branch.
    Branch(Cond),
    /// `lui`.
    Lui,
    /// `auipc`.
    Auipc,
    /// `jal`.
    Jal,
    /// `jalr`.
    Jalr,
    /// `fence`.
    Fence,
    /// `ecall`.
    Ecall,
    /// `ebreak`.
    Ebreak,
}

/// The short form of an instruction, or of two.
#[derive(Clone, Copy)]
pub enum Short {
    /// `nop`.
    Nop,
    /// `mv`.
    Mv,
    /// `li`.
    Li,
    /// `la`.
    La,
    /// `j`.
    J,
    /// `jr`.
    Jr,
    /// `ret`.
    Ret,
    /// `call`.
    Call,
    /// `tail`.
    Tail,
}

/// A directive.
#[derive(Clone, Copy)]
pub enum Directive {
    /// `.text`.
    Text,
    /// `.data`.
    Data,
    /// `.globl`.
    Globl,
    /// `.word`.
    Word,
    /// `.zero`.
    Zero,
    /// `.node`.
    Node,
    /// `.func`.
    Func,
    /// `.endfunc`.
    EndFunc,
    /// `.kind`.
    Kind,
}

/// The instruction of this mnemonic.
pub fn mnemonic_called(word: &[u8]) -> Option<Mnemonic>
    ensures { result ≡ called mnemonic_text mnemonics word.now }
{
    let rows = [
        ("add", Mnemonic::Op(Op::Add)),
        ("sub", Mnemonic::Op(Op::Sub)),
        ("sll", Mnemonic::Op(Op::Sll)),
        ("slt", Mnemonic::Op(Op::Slt)),
        ("sltu", Mnemonic::Op(Op::Sltu)),
        ("xor", Mnemonic::Op(Op::Xor)),
        ("srl", Mnemonic::Op(Op::Srl)),
        ("sra", Mnemonic::Op(Op::Sra)),
        ("or", Mnemonic::Op(Op::Or)),
        ("and", Mnemonic::Op(Op::And)),
        ("addi", Mnemonic::OpImm(ImmOp::Addi)),
        ("slli", Mnemonic::OpImm(ImmOp::Slli)),
        ("slti", Mnemonic::OpImm(ImmOp::Slti)),
        ("sltiu", Mnemonic::OpImm(ImmOp::Sltiu)),
        ("xori", Mnemonic::OpImm(ImmOp::Xori)),
        ("srli", Mnemonic::OpImm(ImmOp::Srli)),
        ("srai", Mnemonic::OpImm(ImmOp::Srai)),
        ("ori", Mnemonic::OpImm(ImmOp::Ori)),
        ("andi", Mnemonic::OpImm(ImmOp::Andi)),
        ("lb", Mnemonic::Load(LoadKind::Lb)),
        ("lh", Mnemonic::Load(LoadKind::Lh)),
        ("lw", Mnemonic::Load(LoadKind::Lw)),
        ("lbu", Mnemonic::Load(LoadKind::Lbu)),
        ("lhu", Mnemonic::Load(LoadKind::Lhu)),
        ("sb", Mnemonic::Store(StoreKind::Sb)),
        ("sh", Mnemonic::Store(StoreKind::Sh)),
        ("sw", Mnemonic::Store(StoreKind::Sw)),
        ("beq", Mnemonic::Branch(Cond::Beq)),
        ("bne", Mnemonic::Branch(Cond::Bne)),
        ("blt", Mnemonic::Branch(Cond::Blt)),
        ("bge", Mnemonic::Branch(Cond::Bge)),
        ("bltu", Mnemonic::Branch(Cond::Bltu)),
        ("bgeu", Mnemonic::Branch(Cond::Bgeu)),
        ("lui", Mnemonic::Lui),
        ("auipc", Mnemonic::Auipc),
        ("jal", Mnemonic::Jal),
        ("jalr", Mnemonic::Jalr),
        ("fence", Mnemonic::Fence),
        ("ecall", Mnemonic::Ecall),
        ("ebreak", Mnemonic::Ebreak),
    ];
    found_in(word, &rows)
}

/// The short form of this keyword.
pub fn short_called(word: &[u8]) -> Option<Short>
    ensures { result ≡ called short_text shorts word.now }
{
    let rows = [
        ("nop", Short::Nop),
        ("mv", Short::Mv),
        ("li", Short::Li),
        ("la", Short::La),
        ("j", Short::J),
        ("jr", Short::Jr),
        ("ret", Short::Ret),
        ("call", Short::Call),
        ("tail", Short::Tail),
    ];
    found_in(word, &rows)
}

/// The directive of this keyword.
pub fn directive_called(word: &[u8]) -> Option<Directive>
    ensures { result ≡ called directive_text directives word.now }
{
    let rows = [
        (".text", Directive::Text),
        (".data", Directive::Data),
        (".globl", Directive::Globl),
        (".word", Directive::Word),
        (".zero", Directive::Zero),
        (".node", Directive::Node),
        (".func", Directive::Func),
        (".endfunc", Directive::EndFunc),
        (".kind", Directive::Kind),
    ];
    found_in(word, &rows)
}

/// The kind of a type node, as `.node` says it.
pub fn node_kind_called(word: &[u8]) -> Option<NodeKind>
    ensures { result ≡ called node_kind_text node_kinds word.now }
{
    let rows = [
        ("void", NodeKind::Void),
        ("int", NodeKind::Int),
        ("real", NodeKind::Real),
        ("ptr", NodeKind::Ptr),
        ("array", NodeKind::Array),
        ("struct", NodeKind::Struct),
        ("union", NodeKind::Union),
        ("func", NodeKind::Func),
        ("varfunc", NodeKind::VarFunc),
    ];
    found_in(word, &rows)
}
