//! The table of relocations (RISC-V ELF psABI, "Relocations").

ghost use Rattle.std.specs.Prelude.{◌≡◌, IfSome};
ghost use Rattle.rv_reloc.specs.Table.{one, immediate, rule_size, rule_of};
ghost use Rattle.elf_read.specs.Relocation.{field_size};

use elf_read::relocation;

/// What a relocation computes, by the letters of the RISC-V ELF psABI.
#[derive(Clone, Copy, Debug, PartialEq, Eq)]
pub enum Formula {
    /// S + A: the symbol's value and the addend.
    Absolute,
    /// S + A - P: the same, from the address of the field.
    Relative,
    /// What the relocation of the high part at the address S computes.
    Partner,
}

/// An instruction's immediate, by the instructions that have it.
#[derive(Clone, Copy, Debug, PartialEq, Eq)]
pub enum Form {
    /// The offset of a conditional branch.
    Branch,
    /// The offset of JAL.
    Jal,
    /// The high part, of LUI.
    Lui,
    /// The high part, of AUIPC.
    Auipc,
    /// The low part, of JALR.
    Jalr,
    /// The low part, of a load, ADDI or JALR.
    LowI,
    /// The low part, of a store.
    LowS,
}

/// What a word gets of the number that its relocation computes.
#[derive(Clone, Copy, Debug, PartialEq, Eq)]
pub enum Field {
    /// The whole word is the number.
    Word,
    /// The number is added to the word.
    Sum,
    /// The number is taken from the word.
    Difference,
    /// The word is an instruction that has this immediate.
    Immediate(Form),
}

/// A row of the table.
#[derive(Clone, Copy, Debug, PartialEq, Eq)]
pub struct Rule {
    /// What it computes.
    pub formula: Formula,
    /// What the word at its place gets.
    pub field: Field,
    /// What the word after it gets, where it changes two.
    pub next: Option<Form>,
}

// A row that changes one word.
fn one(formula: Formula, field: Field) -> Rule
    ensures { result ≡ one formula field }
{
    Rule {
        formula,
        field,
        next: None,
    }
}

// A row that changes the immediate of one instruction.
fn immediate(formula: Formula, form: Form) -> Rule
    ensures { result ≡ immediate formula form }
{
    one(formula, Field::Immediate(form))
}

/// The row of a kind.
///
/// `None` where relocations of the kind change nothing.
#[tactic(auto, unfolding(crate::specs::Table::rule_of, elf_read::specs::Relocation::field_size))]
pub fn rule_of(kind: u32) -> Option<Rule>
    ensures rule { result ≡ rule_of kind }
    ensures size { IfSome result (λ rule. rule_size rule ≡ field_size kind) }
{
    match kind {
        relocation::WORD => Some(one(Formula::Absolute, Field::Word)),
        relocation::BRANCH => Some(immediate(Formula::Relative, Form::Branch)),
        relocation::JAL => Some(immediate(Formula::Relative, Form::Jal)),
        relocation::CALL | relocation::CALL_PLT => Some(Rule {
            formula: Formula::Relative,
            field: Field::Immediate(Form::Auipc),
            next: Some(Form::Jalr),
        }),
        relocation::PCREL_HI20 => Some(immediate(Formula::Relative, Form::Auipc)),
        relocation::PCREL_LO12_I => Some(immediate(Formula::Partner, Form::LowI)),
        relocation::PCREL_LO12_S => Some(immediate(Formula::Partner, Form::LowS)),
        relocation::HI20 => Some(immediate(Formula::Absolute, Form::Lui)),
        relocation::LO12_I => Some(immediate(Formula::Absolute, Form::LowI)),
        relocation::LO12_S => Some(immediate(Formula::Absolute, Form::LowS)),
        relocation::ADD32 => Some(one(Formula::Absolute, Field::Sum)),
        relocation::SUB32 => Some(one(Formula::Absolute, Field::Difference)),
        _ => None,
    }
}
