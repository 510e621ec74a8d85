//! What the commands on files make of the bytes that they read, and why they refuse them.
//!
//! Stands on the formats, `rv_text`, `rv_asm`, `cfi_instr`, `cfi_link`, `cfi_plan`, `cfi_modules`, `cfi_policy`,
//! `cfi_bare` and what these stand on; `cfi_top` calls it. Proved: `listing_of` gives the listing of an object's text,
//! or the object's first fault, by `specs/Listing.antt`; `assembled` the file of the object that a source makes, or its
//! first faulty line, by `specs/Assembling.antt`; `read_module` the module that a file is, or its first fault, by
//! `specs/Reading.antt`, and `read_modules` those that several are, by `specs/Modules.antt`; `instrumented` the file of
//! a file's instrumented module, by `specs/Instrumenting.antt`, and `linked` the file of the module that several files'
//! modules are linked into, by `specs/Linking.antt`, or the first fault; the files of a plan are taken as modules, all
//! before the first is placed, and are placed in order, or the first fault of this order is told with its number, by
//! `specs/Files.antt`; the texts of `verify` and `graph` are exactly those of `specs/Verified.antt` and
//! `specs/Graph.antt`, and the words of a refusal those of `specs/Refusal.antt`. Only tested: that ample memory is
//! enough, by the program of cases. Open: when memory runs out.
#![tactic(auto)]

mod asm;
mod assembling;
mod aux;
mod bare;
mod elf;
mod fault;
mod files;
mod graph;
mod import;
mod instr;
mod instrumenting;
mod judge;
mod link;
mod linking;
mod listing;
mod modules;
mod place;
mod plan;
mod reading;
mod refusal;
mod stubbing;
mod verified;
mod verify;
mod words;

pub use assembling::assembled;
pub use fault::CommandFault;
pub use files::placed_files;
pub use graph::graph_text;
pub use instrumenting::instrumented;
pub use judge::ReportPart;
pub use linking::linked;
pub use listing::listing_of;
pub use modules::read_modules;
pub use reading::read_module;
pub use refusal::{Refusal, put_refusal};
pub use stubbing::stubbed;
pub use verified::verified_text;
