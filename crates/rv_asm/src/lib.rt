//! The assembler: an object of a source.
//!
//! Stands on `rv_insn`, `rv_text`, `rv_line`, `rv_names`, `cfi_values`, `cfi_text`, `elf_read`, `cfi_type_table`,
//! `cfi_aux` and `thiserror`. Proved: `assemble` gives exactly the object that the lines make, each where it stands,
//! joined in their order, as `specs/Made.antt` and `specs/Assembled.antt` have it, or the first faulty line with the
//! least of its faults; that its two passes do so, which `specs/inner` defines, is proved in `proofs/PassLemmas.antt`.
//! Only tested, by the cases of `cfi_cases`: that mnemonics and short forms are spelled as GNU as spells them. Open:
//! nothing.
#![tactic(auto)]

mod adding;
mod assembler;
mod astray;
mod check;
mod code;
mod draft;
mod fault;
mod file;
mod forms;
mod node;
mod object;
mod records;
mod reference;
mod relocs;
mod row;
mod spot;
mod step;
mod survey;
mod switch;
mod words;

pub use assembler::assemble;
pub use fault::AsmFault;
