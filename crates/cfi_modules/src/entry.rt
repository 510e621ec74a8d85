//! Where control enters modules by name.

ghost use Rattle.std.specs.Prelude.{◌≡◌, ℕ, ◌<◌, ◌^◌, ◌&&◌, All, IfSome, IfNone, Some, find, option_map, bytes_eq};
ghost use Rattle.cfi_graph.specs.Code.{entry_of};
ghost use Rattle.cfi_modules.specs.Entry.{IsGlobal, IsGlobalOf, IsFirstOf, HasNoneOf, IsEntryIn, HasAddresses};

use cfi_aux::{Placed, PlacedFunction};

// The address of a function.
fn address_of(placed: &Placed, function: &PlacedFunction) -> u32
    requires { entry_of placed.now function.now < 2 ^ 32 }
    ensures { result ≡ entry_of placed.now function.now }
{
    4 * (placed.base + function.first)
}

// The first Global function of records.
fn global_in(functions: &[PlacedFunction]) -> Option<&PlacedFunction>
    ensures { option_map (λ f. f.now) result ≡ find (λ f. f.global) functions.now }
{
    functions.iter().find(|f| f.global)
}

// The first Global function of this name.
fn named_in<'a>(functions: &'a [PlacedFunction], name: &str) -> Option<&'a PlacedFunction>
    ensures { option_map (λ f. f.now) result
        ≡ find (λ f. f.global && bytes_eq f.name name.now) functions.now }
{
    functions
        .iter()
        .find(|f| f.global && f.name.as_str() == name)
}

/// The address of a module's first Global function, in the order of its records.
pub fn first_global(placed: &Placed) -> Option<u32>
    requires { HasAddresses placed.now }
    ensures some { IfSome result (IsFirstOf IsGlobal placed.now) }
    ensures none { IfNone result (HasNoneOf IsGlobal placed.now) }
    ensures only { (address : ℕ) → IsFirstOf IsGlobal placed.now address → result ≡ Some address }
{
    match global_in(placed.functions.as_slice()) {
        Some(function) => Some(address_of(placed, function)),
        None => None,
    }
}

// The address of the first Global function of this name.
fn global_of(placed: &Placed, name: &str) -> Option<u32>
    requires { HasAddresses placed.now }
    ensures some { IfSome result (IsFirstOf (IsGlobalOf name.now) placed.now) }
    ensures none { IfNone result (HasNoneOf (IsGlobalOf name.now) placed.now) }
    ensures only { (address : ℕ) → IsFirstOf (IsGlobalOf name.now) placed.now address →
        result ≡ Some address }
{
    match named_in(placed.functions.as_slice(), name) {
        Some(function) => Some(address_of(placed, function)),
        None => None,
    }
}

/// The address of the Global function of this name in the first of the modules that has one.
pub fn entry_in(modules: &[Placed], name: &str) -> Option<u32>
    requires { All HasAddresses modules.now }
    ensures some { IfSome result (IsEntryIn modules.now name.now) }
    ensures only { (address : ℕ) → IsEntryIn modules.now name.now address → result ≡ Some address }
{
    for placed in modules {
        if let Some(address) = global_of(placed, name) {
            return Some(address);
        }
    }
    None
}
