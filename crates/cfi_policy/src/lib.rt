//! Images of placed modules, and the policy that their direct edges make: classes and groups of branches and addresses.
//!
//! Stands on `cfi_aux`, `cfi_word`, `cfi_class`, `cfi_flow`, `cfi_graph`, `cfi_values` and `cfi_unit`. Proved: the
//! image of modules has exactly the labels of their direct edges, classes in the order of their least slots, each
//! module's words at its place, and 0 elsewhere; whether the policy lets a branch go to an address is told exactly, for
//! any two numbers; the groups of modules are exactly the sets of branches that may go to the same addresses, with
//! these, in order; an image that stands while modules are added has the labels of all direct edges, and classes keep
//! their numbers. Only tested, by `cfi_calls`: direct edges, groups, images and policies of modules that are written
//! by hand. Open: nothing.
#![tactic(auto)]

mod book;
mod by_class;
mod code;
mod group;
mod idle;
mod image;
mod joins;
mod laws;

pub use book::Book;
pub use code::code_of;
pub use group::{Group, groups};
pub use image::{image_from, image_of};
pub use joins::allowed;
pub use laws::{
    few_span_many, groups_are_one, kept_images_are_one, low_modules_have_image,
    some_module_has_image,
};
