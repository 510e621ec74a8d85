//! Listings are sources: what the assembler makes of the lines that a listing prints.
//!
//! Stands on `rv_insn`, `cfi_unit`, `cfi_text`, `elf_read`, `rv_text`, `rv_line`, `rv_names` and `rv_asm`. Proved: the
//! lines of a listing are read as `.text` and the statement of each word, as `specs/Back.antt` has it, the assembler
//! makes the word of that statement again, and of a whole listing an object of its words. Only tested: nothing. Open:
//! nothing.
#![tactic(auto)]

pub mod laws;
