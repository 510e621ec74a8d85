//! Signatures of function types: what tells whether one may be reached through another.

ghost use Rattle.std.specs.Prelude.{◌≡◌, true, length, IfOk};
ghost use Rattle.cfi_type_table.specs.Spelling.{NamesBelow};
ghost use Rattle.cfi_fits.specs.Fits.{IsCallable};
ghost use Rattle.cfi_fits.specs.inner.Signatures.{key_of, IsMadeOf};

use cfi_types::{FUNC, TypeNode, VARFUNC};
use std::alloc::{AllocError, Global};

/// The signature of a function type. In order, what begins with a key comes after it.
#[derive(Debug, PartialEq, Eq, PartialOrd, Ord, Drop)]
pub(crate) struct Signature {
    // The classes of the result and of the parameters.
    pub(crate) key: Vec<u32>,
    // Whether there are no variable arguments.
    pub(crate) fixed: bool,
    // The class of the type.
    pub(crate) class: u32,
}

// Whether a node of the kind is a function's.
pub(crate) fn is_callable(kind: u32) -> bool
    ensures yes { result ≡ true → IsCallable kind }
    ensures only { IsCallable kind → result ≡ true }
{
    kind == FUNC || kind == VARFUNC
}

// The classes of the nodes that a node names.
fn key_of(alloc: Global, row: &[u32], node: &TypeNode) -> Result<Vec<u32>, AllocError>
    requires { NamesBelow (length row.now) node.now }
    ensures { IfOk result (λ key. key.items ≡ key_of row.now node.now) }
{
    let (_, named) = node.parts();
    let mut key = Vec::with_capacity(alloc, named.len())?;
    for k in named {
        key.push(row[*k as usize])?;
    }
    Ok(key)
}

// The signature of a function's node, by the row of its table.
pub(crate) fn signature_of(
    alloc: Global,
    row: &[u32],
    node: &TypeNode,
    class: u32,
) -> Result<Signature, AllocError>
    requires names { NamesBelow (length row.now) node.now }
    requires callable { IsCallable node.now.kind }
    ensures { IfOk result (λ signature. IsMadeOf row.now node.now class signature) }
{
    let key = key_of(alloc, row, node)?;
    let fixed = node.kind() == FUNC;
    Ok(Signature { key, fixed, class })
}
