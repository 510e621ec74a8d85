//! Numbers, and what they make, drawn from a generator of words.

ghost use Rattle.std.specs.Prelude.{◌≡◌, ◌+◌, ◌<◌, ◌≤◌, ◌∷◌, [], length, map, slice_get, All, Some, IfOk};
ghost use Rattle.rand_core.specs.Stream.{next_u32};
ghost use Rattle.cfi_gen.specs.Draws.{AreDrawn, words_of};
ghost use Rattle.cfi_gen.specs.Drawn.{flag_of, kind_draws, kinds_draws, constant_draws, first_kind, function_draws, AreFunctions, AreSeeded};
ghost use Rattle.cfi_gen.specs.declared.shape.TheConstants.{MAX_FUNCTIONS, MAX_CONSTANTS};

use crate::shape::{Drawn, Function, Kind};
use cfi_values::{Items, Numbers};
use rand_core::Rng;
use rand_pcg::Lcg64Xsh32;
use std::alloc::{AllocError, Global};

/// The stream of the generator, whose state begins at the seed.
pub const STREAM: u64 = 0x0a02bdbf7bb3c0a7;

// A number among so many, from the least on.
#[tactic(auto, unfolding(crate::specs::Draws::AreDrawn))]
fn draw(rng: &mut Lcg64Xsh32, least: u32, among: u32) -> u32
    requires some { 0 < among }
    requires fits { least + among < 1000 }
    ensures drawn { AreDrawn (words_of rng.old)
        (record { least = least; among = among; number = result } ∷ [])
        (words_of rng.new) }
    ensures within { result < least + among }
    ensures from { least ≤ result }
{
    least + rng.next_u32() % among
}

// Whether something is so.
#[tactic(auto, unfolding(crate::specs::Draws::AreDrawn))]
fn draw_flag(rng: &mut Lcg64Xsh32) -> bool
    ensures { AreDrawn (words_of rng.old)
        (record { least = 0; among = 2; number = flag_of result } ∷ [])
        (words_of rng.new) }
{
    draw(rng, 0, 2) == 1
}

// How a function is called.
fn draw_kind(rng: &mut Lcg64Xsh32) -> Kind
    ensures drawn { AreDrawn (words_of rng.old) (kind_draws result) (words_of rng.new) }
    ensures node { result.node ≤ 2 }
{
    let node = draw(rng, 1, 2);
    let taken = draw_flag(rng);
    Kind { node, taken }
}

// How the functions of a module are called.
fn draw_kinds(alloc: Global, rng: &mut Lcg64Xsh32) -> Result<Vec<Kind>, AllocError>
    ensures drawn { IfOk result (λ kinds.
        AreDrawn (words_of rng.old) (kinds_draws kinds.items) (words_of rng.new)) }
    ensures first { IfOk result (λ kinds. slice_get kinds.items 0 ≡ Some first_kind) }
    ensures few { IfOk result (λ kinds. length kinds.items ≤ MAX_FUNCTIONS) }
    ensures nodes { IfOk result (λ kinds. All (λ kind. kind.node ≤ 2) kinds.items) }
{
    let count = draw(rng, 2, 6);
    let mut kinds = Vec::new(alloc);
    kinds.push(Kind {
        node: 1,
        taken: true,
    })?;
    for _ in 1..count {
        kinds.push(draw_kind(rng))?;
    }
    Ok(kinds)
}

// The constants that a function adds.
fn draw_constants(alloc: Global, rng: &mut Lcg64Xsh32) -> Result<Numbers, AllocError>
    ensures drawn { IfOk result (λ constants.
        AreDrawn (words_of rng.old) (constant_draws constants) (words_of rng.new)) }
    ensures few { IfOk result (λ constants. length constants ≤ MAX_CONSTANTS) }
    ensures small { IfOk result (λ constants. All (λ constant. constant < 200) constants) }
{
    let count = draw(rng, 1, 6);
    let mut constants = Vec::new(alloc);
    for _ in 0..count {
        constants.push(draw(rng, 0, 200))?;
    }
    Ok(Items::from_vec(constants))
}

// The functions of a module.
fn draw_functions(alloc: Global, rng: &mut Lcg64Xsh32) -> Result<Items<Function>, AllocError>
    ensures drawn { IfOk result (λ functions.
        AreDrawn (words_of rng.old) (function_draws functions) (words_of rng.new)) }
    ensures are { IfOk result AreFunctions }
{
    let kinds = draw_kinds(alloc, rng)?;
    let mut functions = Vec::new(alloc);
    for kind in kinds.as_slice() {
        let constants = draw_constants(alloc, rng)?;
        functions.push(Function {
            kind: *kind,
            constants,
        })?;
    }
    Ok(Items::from_vec(functions))
}

/// So many modules, drawn one after the other.
pub fn draw_modules(alloc: Global, seed: u64, count: u32) -> Result<Vec<Drawn>, AllocError>
    ensures { IfOk result (λ drawn. AreSeeded seed count drawn.items) }
{
    let mut rng = Lcg64Xsh32::new(seed, STREAM);
    let mut drawn = Vec::new(alloc);
    for number in 0..count {
        let functions = draw_functions(alloc, &mut rng)?;
        drawn.push(Drawn { number, functions })?;
    }
    Ok(drawn)
}
