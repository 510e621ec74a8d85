//! Where offsets lead, in which function a word lies, what a slot's branch is, and whether pointers lead to a function.

ghost use Rattle.std.specs.Prelude.{◌≡◌, ◌↔◌, ℕ, ◌<◌, ◌≤◌, ◌^◌, [], length, slice_index_or, IfSome, IsSomeAnd, IsTrue, Some};
ghost use Rattle.std.specs.List.{AllPairs};
ghost use Rattle.cfi_word.specs.declared.limits.TheConstants.{MAX_CODE_WORDS};
ghost use Rattle.cfi_aux.specs.declared.records.Kind.{Kind};
ghost use Rattle.cfi_graph.specs.Shaped.{FunctionPrecedes};
ghost use Rattle.cfi_graph.specs.Calls.{HasKind};
ghost use Rattle.cfi_graph.specs.Facts.{LeadsToWord, IsFirst, IsOpen, type_node};

use cfi_aux::{Kind, Placed, PlacedFunction};
use cfi_type_table::{FUNC, VARFUNC};
use cfi_types::Classes;
use cfi_word::limits::MAX_CODE_WORDS;

/// The code word that an offset in bytes leads to from another, where it leads to one.
pub fn word_to(at: u32, off: i32) -> Option<u32>
    requires { at < MAX_CODE_WORDS }
    ensures some { IfSome result (LeadsToWord at off) }
    ensures only { (word : ℕ) → LeadsToWord at off word → result ≡ Some word }
{
    let place = 4 * i64::from(at) + i64::from(off);
    if place < 0 || place % 4 != 0 || place >= 4 * i64::from(MAX_CODE_WORDS) {
        return None;
    }
    Some((place / 4) as u32)
}

// The first word of the function in which a word lies.
pub(crate) fn first_at(functions: &[PlacedFunction], at: u32) -> Option<u32>
    requires { AllPairs FunctionPrecedes functions.now }
    ensures some { IfSome result (IsFirst functions.now at) }
    ensures within { IfSome result (λ first. first ≤ at) }
    ensures only { (first : ℕ) → IsFirst functions.now at first → result ≡ Some first }
{
    let number = functions.partition_point(|f| u64::from(f.first) + u64::from(f.count)
        <= u64::from(at));
    if number == functions.len() {
        return None;
    }
    let first = functions[number].first;
    if first <= at { Some(first) } else { None }
}

// What the branch of a slot is.
pub(crate) fn kind_of(placed: &Placed, slot: u32) -> Option<&Kind>
    ensures some { IfSome result (λ kind. HasKind placed.now slot kind.now) }
    ensures only { (kind : Kind) → HasKind placed.now slot kind →
        IsSomeAnd result (λ found. found.now ≡ kind) }
{
    if slot < placed.slot_base {
        return None;
    }
    placed
        .branches
        .as_slice()
        .get((slot - placed.slot_base) as usize)
}

// Whether pointers may lead to a function.
pub(crate) fn is_open(placed: &Placed, function: &PlacedFunction) -> bool
    requires { function.now.ty < length placed.now.types }
    ensures { IsTrue result ↔ IsOpen placed.now function.now }
{
    let kind = placed.types.nodes()[function.ty as usize].kind();
    function.taken && (kind == FUNC || kind == VARFUNC)
}

// The node of a type of a module.
pub(crate) fn type_node(classes: &Classes, number: u32, node: u32) -> u32
    requires table { number < length classes.now }
    requires node { node < length (slice_index_or classes.now number []) }
    requires low { type_node classes.now number node < 2 ^ 32 }
    ensures { result ≡ type_node classes.now number node }
{
    MAX_CODE_WORDS + classes.of(number, node)
}
