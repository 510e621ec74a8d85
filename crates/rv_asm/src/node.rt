//! The nodes of a source.

ghost use Rattle.std.specs.Prelude.{◌≡◌, ◌≤◌, ◌<◌, length, map, drop, IfOk, IfSome};
ghost use Rattle.cfi_word.specs.declared.limits.TheConstants.{MAX_FIELDS};
ghost use Rattle.std.specs.List.{list_all};
ghost use Rattle.cfi_type_table.specs.Kind.{number_count};
ghost use Rattle.rv_asm.specs.Node.{number_of, callable_in, names_nodes, is_word, fits, node_of};
ghost use Rattle.rv_asm.specs.Words.{low_word};

use crate::words::low_word;
use cfi_type_table::{
    ARRAY, FUNC, INT, PTR, REAL, STRUCT, TypeNode, UNION, VARFUNC, VOID, is_callable_kind,
};
use cfi_word::limits::MAX_FIELDS;
use rv_line::NodeKind;
use std::alloc::{AllocError, Global};

// The number of a kind.
fn number_of(kind: NodeKind) -> u32
    ensures { result ≡ number_of kind }
{
    match kind {
        NodeKind::Void => VOID,
        NodeKind::Int => INT,
        NodeKind::Real => REAL,
        NodeKind::Ptr => PTR,
        NodeKind::Array => ARRAY,
        NodeKind::Struct => STRUCT,
        NodeKind::Union => UNION,
        NodeKind::Func => FUNC,
        NodeKind::VarFunc => VARFUNC,
    }
}

/// The number of a node of functions. `None` where the number is none of these nodes, or another kind's.
pub fn callable_in(nodes: &[NodeKind], number: i64) -> Option<u32>
    ensures same { result ≡ callable_in nodes.now number }
{
    let Ok(number) = u32::try_from(number) else {
        return None;
    };
    match nodes.get(number as usize) {
        Some(kind) if is_callable_kind(number_of(*kind)) => Some(number),
        _ => None,
    }
}

// How many of a node's first fields are plain numbers.
fn number_count(kind: NodeKind) -> usize
    ensures { result ≡ number_count (number_of kind) }
{
    match kind {
        NodeKind::Int => 2,
        NodeKind::Real | NodeKind::Array => 1,
        _ => 0,
    }
}

// The fields that name nodes.
fn node_fields(kind: NodeKind, fields: &[i64]) -> &[i64]
    ensures { result.now ≡ drop (number_count (number_of kind)) fields.now }
{
    let numbers = number_count(kind).min(fields.len());
    fields.split_at(numbers).1
}

/// Whether the fields of a node that name nodes name some of so many.
pub fn names_nodes(count: usize, kind: NodeKind, fields: &[i64]) -> bool
    ensures { result ≡ names_nodes count kind fields.now }
{
    node_fields(kind, fields).iter().all(|field| usize::try_from(*field).is_ok_and(|number| number
        < count))
}

fn are_words(fields: &[i64]) -> bool
    ensures { result ≡ list_all is_word fields.now }
{
    fields.iter().all(|field| u32::try_from(*field).is_ok())
}

// Whether the words may be the fields of a kind: an integer has 8, 16, 32 or 64 bits, and 1 where it is signed.
fn fits(kind: NodeKind, words: &[u32]) -> bool
    ensures { result ≡ fits kind words.now }
{
    match (kind, words) {
        (NodeKind::Int, [bits, sign, ..]) => matches!(*bits, 8 | 16 | 32 | 64) && *sign <= 1,
        _ => true,
    }
}

fn words_of(alloc: Global, fields: &[i64]) -> Result<Vec<u32>, AllocError>
    ensures { IfOk result (λ words. words.items ≡ map low_word fields.now) }
{
    let mut words = Vec::new(alloc);
    for field in fields {
        words.push(low_word(*field))?;
    }
    Ok(words)
}

/// A node. `None` where it has more than `MAX_FIELDS` fields, or one is outside its values.
pub fn node_of(
    alloc: Global,
    kind: NodeKind,
    fields: &[i64],
) -> Result<Option<TypeNode>, AllocError>
    ensures same { IfOk result (λ found. found ≡ node_of kind fields.now) }
    ensures few { IfOk result (λ found. IfSome found (λ node. length node.fields ≤ MAX_FIELDS)) }
{
    if fields.len() > MAX_FIELDS as usize {
        return Ok(None);
    }
    if !are_words(fields) {
        return Ok(None);
    }
    let words = words_of(alloc, fields)?;
    if fits(kind, words.as_slice()) {
        Ok(Some(TypeNode::new(number_of(kind), words)))
    } else {
        Ok(None)
    }
}
