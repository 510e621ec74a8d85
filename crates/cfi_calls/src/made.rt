//! Modules that are written by hand, by units.

ghost use Rattle.std.specs.Prelude.{◌≡◌, ◌<◌, ◌≤◌, false, [], ◌∷◌, map, IfOk, IsTrue};
ghost use Rattle.std.specs.List.{flat_map, AllByRecursion};
ghost use Rattle.cfi_unit.specs.Unit.{IsUnit, words_of};
ghost use Rattle.cfi_unit.specs.declared.unit.Unit.TheVariants.{Jump};
ghost use Rattle.cfi_word.specs.declared.limits.TheConstants.{MAX_CODE_WORDS};
ghost use Rattle.cfi_word.specs.declared.map.TheConstants.{FIRST_BASE};
ghost use Rattle.cfi_aux.specs.Cells.{have_cells};
ghost use Rattle.cfi_graph.specs.HandMade.{function_of, placed_of, void_and_function};
ghost use Rattle.cfi_graph.specs.Shaped.{IsShaped};
ghost use Rattle.cfi_policy.specs.Image.{HaveImage};

use cfi_aux::{Kind, Placed, PlacedFunction};
use cfi_policy::low_modules_have_image;
use cfi_type_table::{FUNC, TypeNode, TypeTable, VOID};
use cfi_unit::{Unit, spell};
use cfi_values::{Bytes, Items};
use elf_read::Name;
use std::alloc::{AllocError, Global};

// The words of the units.
fn words_of(alloc: Global, code: &[Unit]) -> Result<Vec<u32>, AllocError>
    requires { AllByRecursion IsUnit code.now }
    ensures { IfOk result (λ words. words.items ≡ flat_map words_of code.now) }
{
    let mut words = Vec::new(alloc);
    for unit in code {
        spell(unit, &mut words)?;
    }
    Ok(words)
}

// Functions by their first words, how many they have, the nodes of their types, and whether they are taken.
fn functions_of(
    alloc: Global,
    rows: &[(u32, u32, u32, bool)],
) -> Result<Vec<PlacedFunction>, AllocError>
    ensures { IfOk result (λ functions. functions.items ≡ map function_of rows.now) }
{
    let mut functions = Vec::new(alloc);
    for row in rows {
        let (first, count, ty, taken) = *row;
        functions.push(PlacedFunction {
            first,
            count,
            ty,
            taken,
            global: false,
            name: Name::from_string(String::new(alloc)),
        })?;
    }
    Ok(functions)
}

// A module of these units, functions, branches and types at this place, which has no data and exports nothing.
fn module_of(
    alloc: Global,
    base: u32,
    slot_base: u32,
    code: &[Unit],
    rows: &[(u32, u32, u32, bool)],
    branches: Vec<Kind>,
    types: TypeTable,
) -> Result<Placed, AllocError>
    requires units { AllByRecursion IsUnit code.now }
    requires cells { IsTrue (have_cells 0 branches.items) }
    ensures { IfOk result (λ m. (cells : IsTrue (have_cells 0 branches.items)) →
        m ≡ placed_of base slot_base code.now rows.now branches.items cells types) }
{
    Ok(Placed {
        base,
        slot_base,
        data_base: 0,
        words: Items::from_vec(words_of(alloc, code)?),
        static_data: Bytes::from_vec(Vec::new(alloc)),
        functions: Items::from_vec(functions_of(alloc, rows)?),
        branches: Items::from_vec(branches),
        types,
        exports: Items::from_vec(Vec::new(alloc)),
    })
}

// Void, and a function that gives it.
fn void_and_function(alloc: Global) -> Result<TypeTable, AllocError>
    ensures { IfOk result (λ table. table ≡ void_and_function) }
{
    let void = TypeNode::new(VOID, Vec::new(alloc));
    let function = TypeNode::new(FUNC, vec![in alloc; 0]?);
    Ok(TypeTable::from_vec(vec![in alloc; void, function]?))
}

/// Calls of f and of g, and one through a pointer to a type; f and g, of the type of node 1, are taken and return.
pub fn calls(alloc: Global, node: u32) -> Result<Placed, AllocError>
    requires { node < 2 }
    ensures { IfOk result (λ m. HaveImage (m ∷ []) 1024) }
{
    low_modules_have_image();
    let code = [
        Unit::Jump {
            link: true,
            off: 68,
        },
        Unit::Jump {
            link: true,
            off: 120,
        },
        Unit::Check {
            link: true,
            rs1: 5,
            imm: 0,
            slot: 0,
        },
        Unit::Jump {
            link: false,
            off: 0,
        },
        Unit::Check {
            link: false,
            rs1: 1,
            imm: 0,
            slot: 1,
        },
        Unit::Check {
            link: false,
            rs1: 1,
            imm: 0,
            slot: 2,
        },
    ];
    let rows = [(0, 17, 1, false), (17, 14, 1, true), (31, 14, 1, true)];
    let kinds = vec![in alloc; Kind::Call(node), Kind::Return, Kind::Return]?;
    let types = void_and_function(alloc)?;
    module_of(alloc, 16, 0, &code, &rows, kinds, types)
}

/// A direct jump, and nothing else.
pub fn jump(alloc: Global, base: u32, off: i32) -> Result<Placed, AllocError>
    requires begins { FIRST_BASE ≤ base }
    requires ends { base < MAX_CODE_WORDS }
    requires unit { IsUnit (Jump false off) }
    ensures { IfOk result IsShaped }
{
    let code = [Unit::Jump { link: false, off }];
    let types = TypeTable::from_vec(Vec::new(alloc));
    module_of(alloc, base, 0, &code, &[], Vec::new(alloc), types)
}
