//! The links from each class of function types to the nearest wider one.

ghost use Rattle.std.specs.Prelude.{◌≡◌, ℕ, false, All, length, IfOk};
ghost use Rattle.cfi_type_table.specs.declared.kind.TheConstants.{VARFUNC};
ghost use Rattle.cfi_type_table.specs.Node.{node_of};
ghost use Rattle.cfi_types.specs.Classes.{AreClasses, IsNodePlace, table_of};
ghost use Rattle.cfi_fits.specs.Widening.{AreWidenings};
ghost use Rattle.cfi_fits.specs.inner.Nearest.{AreNearest, AreLinksOf};

use crate::gathering::in_order;
use crate::nearest::nearest_all;
use crate::signature::Signature;
use cfi_flow::Link;
use cfi_types::{Classes, TypeBook, TypeNode, VARFUNC};
use std::alloc::{AllocError, Global};

// Whether a function type of the table has variable arguments.
fn has_variadic(nodes: &[TypeNode]) -> bool
    ensures { result ≡ false → All (λ x. x.kind ≡ VARFUNC → ⊥) nodes.now }
{
    for node in nodes {
        if node.kind() == VARFUNC {
            return true;
        }
    }
    false
}

// Whether a function type of some table has variable arguments.
fn any_variadic(book: &TypeBook) -> bool
    ensures { result ≡ false → (t a : ℕ) → IsNodePlace book.now t a
        → (node_of (table_of book.now t) a).kind ≡ VARFUNC → ⊥ }
{
    for table in 0..book.count() {
        if has_variadic(book.nodes(table)) {
            return true;
        }
    }
    false
}

// The links from each place's class to that of its nearest wider one.
fn links_of(
    alloc: Global,
    signatures: &[Signature],
    nearest: &[Option<usize>],
) -> Result<Vec<Link>, AllocError>
    requires { AreNearest signatures.now nearest.now (length signatures.now) }
    ensures { IfOk result (λ links.
        AreLinksOf signatures.now nearest.now (length signatures.now) links.items) }
{
    let mut links = Vec::new(alloc);
    for (place, found) in nearest.iter().enumerate() {
        if let Some(wide) = found {
            let (from, to) = (signatures[place].class, signatures[*wide].class);
            if from != to {
                links.push(Link { from, to })?;
            }
        }
    }
    links.dedup();
    Ok(links)
}

/// The links from each class of function types to the nearest wider one: the class of the type with variable arguments
/// whose result and parameters are equal to its first ones, and as many as may be.
///
/// A pointer to a function type may reach functions of its class, and of each class from which links lead to it. There
/// are at most as many links as nodes; the work is proportional to the fields of function types, but for sorting, and
/// one look at each node's kind where no type has variable arguments. MCFI (Niu and Tan, PLDI 2014).
pub fn widenings(alloc: Global, book: &TypeBook, classes: &Classes) -> Result<Vec<Link>, AllocError>
    requires { AreClasses book.now classes.now }
    ensures { IfOk result (λ links. AreWidenings book.now classes.now links.items) }
{
    if !any_variadic(book) {
        return Ok(Vec::new(alloc));
    }
    let signatures = in_order(alloc, book, classes)?;
    let nearest = nearest_all(alloc, signatures.as_slice())?;
    links_of(alloc, signatures.as_slice(), nearest.as_slice())
}
