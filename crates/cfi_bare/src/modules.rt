//! The module that a bare file is.

ghost use Rattle.std.specs.Prelude.{◌≡◌, ◌≤◌, length, IfOk};
ghost use Rattle.cfi_bare.specs.Modules.{bare_types, bare_functions, bare_object, bare_module};
ghost use Rattle.cfi_word.specs.declared.limits.TheConstants.{MAX_FILE_BYTES};

use cfi_aux::{Function, Module, Records};
use cfi_type_table::{FUNC, TypeNode, TypeTable, VOID};
use cfi_values::{Bytes, Items};
use elf_read::{Name, Object, Relocs, Symbols};
use std::alloc::{AllocError, Global};

/// The number of the type of a bare file's function: a function of no parameters that gives Void.
pub const FUNCTION_TYPE: u32 = 1;

// The types of a bare file: Void, and its function's.
fn types_of(alloc: Global) -> Result<TypeTable, AllocError>
    ensures { IfOk result (λ table. table ≡ bare_types) }
{
    let mut nodes = Vec::new(alloc);
    nodes.push(TypeNode::new(VOID, Vec::new(alloc)))?;
    nodes.push(TypeNode::new(FUNC, vec![in alloc; 0u32]?))?;
    Ok(TypeTable::from_vec(nodes))
}

// The function of a bare file, which an empty one has not.
fn functions_of(alloc: Global, bytes: &[u8]) -> Result<Items<Function>, AllocError>
    requires { length bytes.now ≤ MAX_FILE_BYTES }
    ensures { IfOk result (λ functions. functions ≡ bare_functions bytes.now) }
{
    let mut functions = Vec::new(alloc);
    if !bytes.is_empty() {
        functions.push(Function {
            offset: 0,
            length: bytes.len() as u32,
            ty: FUNCTION_TYPE,
            taken: false,
            name: Name::from_string(String::from_str(alloc, "bare")?),
        })?;
    }
    Ok(Items::from_vec(functions))
}

// The object of a bare file: its text alone.
fn object_of(alloc: Global, bytes: &[u8]) -> Result<Object, AllocError>
    ensures { IfOk result (λ object. object ≡ bare_object bytes.now) }
{
    Ok(Object {
        text: Bytes::from_vec(bytes.to_vec(alloc)?),
        static_data: Bytes::from_vec(Vec::new(alloc)),
        symbols: Symbols::from_vec(Vec::new(alloc)),
        relocs: Relocs::from_vec(Vec::new(alloc)),
        types: None,
        records: None,
    })
}

/// The module of a bare file's bytes, in which no check has a record. `Err` where memory is out.
pub fn module_of(alloc: Global, bytes: &[u8]) -> Result<Module, AllocError>
    requires { length bytes.now ≤ MAX_FILE_BYTES }
    ensures { IfOk result (λ made. made ≡ bare_module bytes.now) }
{
    let functions = functions_of(alloc, bytes)?;
    Ok(Module {
        object: object_of(alloc, bytes)?,
        types: types_of(alloc)?,
        records: Records {
            functions,
            branches: Items::from_vec(Vec::new(alloc)),
        },
    })
}
