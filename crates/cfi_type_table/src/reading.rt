//! Reads a type table from its bytes.

ghost use Rattle.std.specs.Prelude.{◌≡◌, ◌≤◌, List, length, take, drop, nat_lt, true, false, IfOk, IfSome, IfNone, Ok};
ghost use Rattle.std.specs.Int.{w32, from_le_bytes};
ghost use Rattle.std.specs.List.{list_all};
ghost use Rattle.cfi_type_table.specs.Kind.{nodes_of};
ghost use Rattle.cfi_type_table.specs.Node.{Node};
ghost use Rattle.cfi_type_table.specs.Spelling.{AreTypes, spelling};
ghost use Rattle.cfi_type_table.specs.Reading.{ReadingGives, next_word, fields_at, node_at, nodes_at, stray_from, types_in};

use crate::fault::TypeFault;
use crate::kind::{VARFUNC, may_be_field, may_have};
use crate::node::TypeNode;
use crate::table::TypeTable;
use cfi_word::limits::MAX_NODES;
use std::alloc::Global;

/// The word that bytes begin with, the lowest byte first, and the bytes after it. `None` where there are fewer than four.
pub fn split_word(bytes: &[u8]) -> Option<(u32, &[u8])>
    ensures word { IfSome result (λ x. x.0 ≡ from_le_bytes w32 (take 4 bytes.now)) }
    ensures rest { IfSome result (λ x. x.1.now ≡ drop 4 bytes.now) }
    ensures some { IfSome result (λ x. nat_lt (length bytes.now) 4 ≡ false) }
    ensures none { IfNone result (nat_lt (length bytes.now) 4 ≡ true) }
{
    if bytes.len() < 4 {
        return None;
    }
    let (front, rest) = bytes.split_at(4);
    let word = u32::from_le_bytes([front[0], front[1], front[2], front[3]]);
    Some((word, rest))
}

fn word_from(bytes: &[u8]) -> Result<(u32, &[u8]), TypeFault>
    ensures { ReadingGives (λ x. (x.0, x.1.now)) result (next_word bytes.now) }
{
    match split_word(bytes) {
        Some(found) => Ok(found),
        None => Err(TypeFault::Short),
    }
}

fn fields_from(
    alloc: Global,
    number: u32,
    kind: u32,
    count: u32,
    bytes: &[u8],
) -> Result<(Vec<u32>, &[u8]), TypeFault>
    ensures { ReadingGives (λ x. (x.0.items, x.1.now)) result
        (fields_at number kind 0 count bytes.now) }
{
    let mut fields = Vec::with_capacity(alloc, count as usize)?;
    let mut rest = bytes;
    for place in 0..count {
        let (word, after) = word_from(rest)?;
        if !may_be_field(kind, place as usize, word) {
            return Err(TypeFault::BadNode(number));
        }
        fields.push(word)?;
        rest = after;
    }
    Ok((fields, rest))
}

#[tactic(auto, unfolding(crate::specs::Reading::node_at))]
fn node_from(alloc: Global, number: u32, bytes: &[u8]) -> Result<(TypeNode, &[u8]), TypeFault>
    ensures { ReadingGives (λ x. (x.0, x.1.now)) result (node_at number bytes.now) }
{
    let (kind, rest) = word_from(bytes)?;
    if kind > VARFUNC {
        return Err(TypeFault::BadNode(number));
    }
    let (count, rest) = word_from(rest)?;
    if !may_have(kind, count) {
        return Err(TypeFault::BadNode(number));
    }
    let (fields, rest) = fields_from(alloc, number, kind, count, rest)?;
    Ok((TypeNode::new(kind, fields), rest))
}

fn table_nodes(alloc: Global, count: u32, bytes: &[u8]) -> Result<(Vec<TypeNode>, &[u8]), TypeFault>
    ensures read { ReadingGives (λ x. (x.0.items, x.1.now)) result (nodes_at 0 count bytes.now) }
    ensures counted { IfOk result (λ x. length x.0.items ≡ count) }
{
    let mut nodes = Vec::with_capacity(alloc, count as usize)?;
    let mut rest = bytes;
    for number in 0..count {
        let (node, after) = node_from(alloc, number, rest)?;
        nodes.push(node)?;
        rest = after;
    }
    Ok((nodes, rest))
}

// Whether each node that this one names is one of the first `count`.
fn names_below(node: &TypeNode, count: u32) -> bool
    ensures { result ≡ list_all (λ k. nat_lt k count) (nodes_of node.now) }
{
    let (_, named) = node.parts();
    named.iter().all(|k| *k < count)
}

// The least node that names a node which is none of the first `count`.
fn first_stray(nodes: &[TypeNode], count: u32) -> Option<u32>
    requires { length nodes.now ≤ MAX_NODES }
    ensures { result ≡ stray_from count 0 nodes.now }
{
    for (number, node) in nodes.iter().enumerate() {
        if !names_below(node, count) {
            return Some(number as u32);
        }
    }
    None
}

#[tactic(auto, unfolding(crate::specs::Reading::types_in))]
fn all_of(alloc: Global, bytes: &[u8]) -> Result<TypeTable, TypeFault>
    ensures { ReadingGives (λ table. table) result (types_in bytes.now) }
{
    let (count, rest) = word_from(bytes)?;
    if count > MAX_NODES {
        return Err(TypeFault::BadNode(MAX_NODES));
    }
    let (nodes, rest) = table_nodes(alloc, count, rest)?;
    if !rest.is_empty() {
        return Err(TypeFault::Short);
    }
    match first_stray(nodes.as_slice(), count) {
        Some(number) => Err(TypeFault::BadIndex(number)),
        None => Ok(TypeTable::from_vec(nodes)),
    }
}

/// The type table that the bytes spell, all of the bytes.
///
/// A word with the number of nodes, at most `MAX_NODES`; then each node as a word with its kind, a
/// word with the number of its fields, and its fields; words are of four bytes, the lowest first. A
/// fault is the first from left to right; that a node names one which is not there comes last. MCFI,
/// type matching.
pub fn read_types(alloc: Global, bytes: &[u8]) -> Result<TypeTable, TypeFault>
    // What is read is a table, and the bytes are its spelling.
    ensures ok { IfOk result (λ table. AreTypes table × (bytes.now ≡ spelling table)) }
    // What is spelled so is read.
    ensures only { (xs : List Node) → AreTypes xs → bytes.now ≡ spelling xs →
        ReadingGives (λ table. table) result (Ok xs) }
    // Which fault it is.
    ensures fault { ReadingGives (λ table. table) result (types_in bytes.now) }
{
    all_of(alloc, bytes)
}
