//! The names that statements refer to.

ghost use Rattle.std.specs.Prelude.{◌≡◌};
ghost use Rattle.std.specs.Option.{option_map};
ghost use Rattle.rv_asm.specs.inner.Reference.{shown};
ghost use Rattle.rv_asm.specs.Reference.{low_reference, high_reference, target_reference, datum_reference, reference_of, is_leap, is_partner};

use elf_read::Name;
use elf_read::relocation::{
    BRANCH, CALL_PLT, HI20, JAL, LO12_I, LO12_S, PCREL_HI20, PCREL_LO12_I, PCREL_LO12_S, WORD,
};
use rv_line::{Datum, High, Low, Statement, Target};

/// The kind of a relocation, and the name that it is by.
#[derive(Clone, Copy)]
pub struct Reference<'a> {
    /// The kind, by the numbers of the RISC-V ELF psABI.
    pub kind: u32,
    /// The name.
    pub name: &'a Name,
}

// By an immediate of 12 bits.
fn low_reference(lo: u32, pcrel_lo: u32, imm: &Low) -> Option<Reference<'_>>
    ensures { option_map shown result ≡ low_reference lo pcrel_lo imm.now }
{
    match imm {
        Low::Number(_) => None,
        Low::Lo(name) => Some(Reference { kind: lo, name }),
        Low::PcrelLo(name) => Some(Reference {
            kind: pcrel_lo,
            name,
        }),
    }
}

// By an immediate of 20 bits.
fn high_reference(imm: &High) -> Option<Reference<'_>>
    ensures { option_map shown result ≡ high_reference imm.now }
{
    match imm {
        High::Number(_) => None,
        High::Hi(name) => Some(Reference { kind: HI20, name }),
        High::PcrelHi(name) => Some(Reference {
            kind: PCREL_HI20,
            name,
        }),
    }
}

// By where a jump or a branch leads.
fn target_reference(kind: u32, target: &Target) -> Option<Reference<'_>>
    ensures { option_map shown result ≡ target_reference kind target.now }
{
    match target {
        Target::Name(name) => Some(Reference { kind, name }),
        Target::Offset(_) => None,
    }
}

fn datum_reference(datum: &Datum) -> Option<Reference<'_>>
    ensures { option_map shown result ≡ datum_reference datum.now }
{
    match datum {
        Datum::Number(_) => None,
        Datum::Name(name) => Some(Reference { kind: WORD, name }),
    }
}

/// The name that a statement refers to by a relocation, and the relocation's kind. `None` where it refers to none.
pub fn reference_of(statement: &Statement) -> Option<Reference<'_>>
    ensures { option_map shown result ≡ reference_of statement.now }
{
    match statement {
        Statement::OpImm { imm, .. } | Statement::Load { imm, .. } | Statement::Jalr { imm, .. } =>
            low_reference(LO12_I, PCREL_LO12_I, imm),
        Statement::Store { imm, .. } => low_reference(LO12_S, PCREL_LO12_S, imm),
        Statement::Branch { target, .. } => target_reference(BRANCH, target),
        Statement::Jal { target, .. } => target_reference(JAL, target),
        Statement::Lui { imm, .. } | Statement::Auipc { imm, .. } => high_reference(imm),
        Statement::La { name, .. } => Some(Reference {
            kind: PCREL_HI20,
            name,
        }),
        Statement::Call(name) | Statement::Tail(name) => Some(Reference {
            kind: CALL_PLT,
            name,
        }),
        Statement::Word(datum) => datum_reference(datum),
        _ => None,
    }
}

/// Whether the relocation is that of a jump or a branch.
pub fn is_leap(kind: u32) -> bool
    ensures { result ≡ is_leap kind }
{
    matches!(kind, BRANCH | JAL)
}

/// Whether the relocation's name is that of an `auipc`.
pub fn is_partner(kind: u32) -> bool
    ensures { result ≡ is_partner kind }
{
    matches!(kind, PCREL_LO12_I | PCREL_LO12_S)
}
