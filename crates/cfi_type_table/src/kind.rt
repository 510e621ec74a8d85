//! The kinds of type nodes, and which fields a node of each kind has.

ghost use Rattle.std.specs.Prelude.{◌≡◌};
ghost use Rattle.cfi_type_table.specs.Kind.{number_count, has_arity, field_fits, is_callable_kind};

use cfi_word::limits::MAX_FIELDS;

/// The kind of the type `void`, which has no fields.
pub const VOID: u32 = 0;
/// The kind of an integer: its bits (8, 16, 32 or 64), and 1 where it is signed, else 0.
pub const INT: u32 = 1;
/// The kind of a floating-point number: its bytes.
pub const REAL: u32 = 2;
/// The kind of a pointer: the node that it points to.
pub const PTR: u32 = 3;
/// The kind of an array: the number of its elements, and their node.
pub const ARRAY: u32 = 4;
/// The kind of a structure: the nodes of its members.
pub const STRUCT: u32 = 5;
/// The kind of a union: the nodes of its members.
pub const UNION: u32 = 6;
/// The kind of a function: the node of its result, then those of its parameters.
pub const FUNC: u32 = 7;
/// The kind of a function with variable arguments: the node of its result, then those of its fixed parameters.
pub const VARFUNC: u32 = 8;

/// Whether nodes of the kind are types of functions, with fixed or with variable arguments.
pub fn is_callable_kind(kind: u32) -> bool
    ensures { result ≡ is_callable_kind kind }
{
    kind == FUNC || kind == VARFUNC
}

// How many of a node's first fields are plain numbers.
pub(crate) fn count_numbers(kind: u32) -> usize
    ensures { result ≡ number_count kind }
{
    match kind {
        INT => 2,
        REAL | ARRAY => 1,
        _ => 0,
    }
}

// Whether a node of the kind may have `count` fields.
pub(crate) fn may_have(kind: u32, count: u32) -> bool
    ensures { result ≡ has_arity kind count }
{
    match kind {
        VOID => count == 0,
        INT | ARRAY => count == 2,
        REAL | PTR => count == 1,
        STRUCT | UNION => count <= MAX_FIELDS,
        FUNC | VARFUNC => 1 <= count && count <= MAX_FIELDS,
        _ => false,
    }
}

// Whether the word may be the field of this place in a node of the kind.
pub(crate) fn may_be_field(kind: u32, place: usize, word: u32) -> bool
    ensures { result ≡ field_fits kind place word }
{
    if kind != INT {
        return true;
    }
    if place == 0 {
        return word == 8 || word == 16 || word == 32 || word == 64;
    }
    word <= 1
}
