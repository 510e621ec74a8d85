//! What the files that `asm`, `instrument`, `stub` and `link` save are read as.
//!
//! Stands on `cfi_commands`, `cfi_request`, `cfi_made_law`, `cfi_instr_law` and what these stand on; nothing stands on
//! it. Proved: a file that a shelf tells is read as it is where it is short enough, and else refused as too long; such
//! a file that `asm` saves is read as the object that was made, and one that `instrument`, `stub` or `link` saves as
//! the module, with relocations of text before those of data, and an instrumented one has no fault at its place but
//! jumps that lead elsewhere; one that `asm` saves of a source with records is the module of the source's lines, or the
//! record of its first switch with too many entries is a bad one; a module with a masked access, a call and a check,
//! and a source of one function, meet what these laws and those of `cfi_instr_law` and `cfi_made_law` take for granted,
//! but for the two laws of stubs: the cases of `stub` alone show files that meet those. Only tested: nothing. Open: one
//! module that goes through `stub` and `instrument`, for them.
#![tactic(auto)]

pub mod laws;
