//! Symbols, relocations and nodes of a module, shifted to where it begins.

ghost use Rattle.std.specs.Prelude.{◌≡◌, ◌<◌, ◌^◌, ◌++◌, All, map, length, IfOk, OnOk};
ghost use Rattle.std.specs.List.{enumerate_from};
ghost use Rattle.cfi_type_table.specs.Kind.{number_count, numbers_of, nodes_of};
ghost use Rattle.cfi_link.specs.Joined.{value_at, symbol_at, reloc_at, own_reloc_at, node_at};
ghost use Rattle.cfi_link.specs.inner.Room.{HasValue, HasPlace, HasNodes};

use crate::joined::OwnReloc;
use crate::start::Start;
use cfi_type_table::{ARRAY, INT, REAL, TypeNode};
use elf_read::{Area, Name, Place, Reloc, Symbol};
use std::alloc::{AllocError, Global};

fn value_at(start: Start, symbol: &Symbol) -> u32
    requires { HasValue start symbol.now.place symbol.now.value }
    ensures { result ≡ value_at start symbol.now.place symbol.now.value }
{
    match symbol.place {
        Place::Undefined | Place::Absolute => symbol.value,
        Place::Text => start.text + symbol.value,
        Place::Data => start.static_data + symbol.value,
    }
}

fn symbol_at(alloc: Global, start: Start, symbol: &Symbol) -> Result<Symbol, AllocError>
    requires { HasValue start symbol.now.place symbol.now.value }
    ensures { IfOk result (λ made. made ≡ symbol_at start symbol.now) }
{
    let name = String::from_str(alloc, symbol.name.as_str())?;
    Ok(Symbol {
        name: Name::from_string(name),
        binding: symbol.binding,
        place: symbol.place,
        value: value_at(start, symbol),
    })
}

/// Adds the symbols of a module.
pub fn push_symbols(
    alloc: Global,
    out: &mut Vec<Symbol>,
    start: Start,
    symbols: &[Symbol],
) -> Result<(), AllocError>
    requires { All (λ s. HasValue start s.place s.value) symbols.now }
    ensures { OnOk result (out.new.items ≡ out.old.items ++ map (symbol_at start) symbols.now) }
{
    for symbol in symbols {
        out.push(symbol_at(alloc, start, symbol)?)?;
    }
    Ok(())
}

fn reloc_at(start: Start, reloc: &Reloc) -> Reloc
    requires { HasPlace start reloc.now }
    ensures { result ≡ reloc_at start reloc.now }
{
    let offset = match reloc.area {
        Area::Text => start.text + reloc.offset,
        Area::Data => start.static_data + reloc.offset,
    };
    Reloc {
        offset,
        symbol: reloc.symbol.map(|k| start.symbols + k),
        ..*reloc
    }
}

/// Adds the relocations of the module of a number.
pub fn push_relocs(
    out: &mut Vec<OwnReloc>,
    start: Start,
    owner: u32,
    relocs: &[Reloc],
) -> Result<(), AllocError>
    requires places { All (HasPlace start) relocs.now }
    requires few { length relocs.now < 2 ^ 32 }
    ensures { OnOk result (out.new.items
        ≡ out.old.items ++ map (own_reloc_at start owner) (enumerate_from 0 relocs.now)) }
{
    for (number, reloc) in relocs.iter().enumerate() {
        out.push(OwnReloc {
            owner,
            number: number as u32,
            reloc: reloc_at(start, reloc),
        })?;
    }
    Ok(())
}

// How many of a node's first fields are plain numbers; the others name nodes.
fn number_count(kind: u32) -> usize
    ensures { result ≡ number_count kind }
{
    match kind {
        INT => 2,
        REAL | ARRAY => 1,
        _ => 0,
    }
}

// The numbers of a node, and the nodes that it names.
fn parts_of(node: &TypeNode) -> (&[u32], &[u32])
    ensures numbers { result.0.now ≡ numbers_of node.now }
    ensures nodes { result.1.now ≡ nodes_of node.now }
{
    let fields = node.fields();
    fields.split_at(number_count(node.kind()).min(fields.len()))
}

fn node_at(alloc: Global, start: Start, node: &TypeNode) -> Result<TypeNode, AllocError>
    requires { HasNodes start node.now }
    ensures { IfOk result (λ made. made ≡ node_at start node.now) }
{
    let parts = parts_of(node);
    let mut made = Vec::from_slice(alloc, parts.0)?;
    for k in parts.1 {
        made.push(start.types + *k)?;
    }
    Ok(TypeNode::new(node.kind(), made))
}

/// Adds the nodes of a module's types.
pub fn push_nodes(
    alloc: Global,
    out: &mut Vec<TypeNode>,
    start: Start,
    nodes: &[TypeNode],
) -> Result<(), AllocError>
    requires { All (HasNodes start) nodes.now }
    ensures { OnOk result (out.new.items ≡ out.old.items ++ map (node_at start) nodes.now) }
{
    for node in nodes {
        out.push(node_at(alloc, start, node)?)?;
    }
    Ok(())
}
