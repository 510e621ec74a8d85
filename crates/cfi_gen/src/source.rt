//! The source of a module.

ghost use Rattle.std.specs.Prelude.{◌≡◌, ◌+◌, ◌^◌, ◌<◌, ◌≤◌, ◌++◌, length, slice_get, option_map, Some, OnOk, IfOk, string_bytes};
ghost use Rattle.std.specs.List.{flat_map};
ghost use Rattle.cfi_gen.specs.Source.{addition, call_lines, body_lines, function_lines, func_line, function_name, global_lines, taken_word, line, node_lines, source_text};

use crate::main_function::put_main;
use crate::shape::{Drawn, Function, Kind};
use std::alloc::{AllocError, Global};

// Appends a line.
#[tactic(auto, unfolding(crate::specs::Source::line))]
pub(crate) fn put_line(text: &mut String, words: &str) -> Result<(), AllocError>
    ensures { OnOk result (string_bytes text.new ≡ string_bytes text.old ++ line words.now) }
{
    text.push_str(words)?;
    text.push_str("\n")
}

// Appends the types.
#[tactic(auto, unfolding(crate::specs::Source::node_lines))]
fn put_nodes(text: &mut String) -> Result<(), AllocError>
    ensures { OnOk result (string_bytes text.new ≡ string_bytes text.old ++ node_lines) }
{
    put_line(text, ".node int 32 1")?;
    put_line(text, ".node func 0 0")?;
    put_line(text, ".node func 0 0 0")?;
    Ok(())
}

// Appends an addition.
#[tactic(auto, unfolding(crate::specs::Source::line))]
fn put_addition(text: &mut String, constant: u32) -> Result<(), AllocError>
    ensures { OnOk result (string_bytes text.new ≡ string_bytes text.old ++ addition constant) }
{
    write!(text, "addi a0,a0,{constant}\n")
}

// Appends what a function adds.
fn put_additions(text: &mut String, constants: &[u32]) -> Result<(), AllocError>
    ensures { OnOk result
        (string_bytes text.new ≡ string_bytes text.old ++ flat_map addition constants.now) }
{
    for constant in constants {
        put_addition(text, *constant)?;
    }
    Ok(())
}

// Appends a call of a function of the module.
#[tactic(auto, unfolding(crate::specs::Source::line))]
fn put_call(text: &mut String, number: u32, place: usize, kind: &Kind) -> Result<(), AllocError>
    ensures { OnOk result (string_bytes text.new ≡ string_bytes text.old ++
        call_lines (function_name number place) kind.now.node kind.now.taken) }
{
    if kind.taken {
        write!(text, "la t0,m{number}_f{place}\n")?;
        write!(text, ".kind call {}\n", kind.node)?;
        put_line(text, "jalr ra,0(t0)")
    } else {
        write!(text, "call m{number}_f{place}\n")
    }
}

// Appends the body of a function that calls the next one.
#[tactic(auto, unfolding(crate::specs::Source::keeping_lines, crate::specs::Source::giving_lines))]
fn put_calling(
    text: &mut String,
    number: u32,
    place: usize,
    function: &Function,
    next: &Function,
) -> Result<(), AllocError>
    requires { place < 2 ^ 32 }
    ensures { OnOk result (string_bytes text.new ≡ string_bytes text.old ++
        body_lines number place function.now (Some next.now)) }
{
    put_line(text, "addi sp,sp,-16")?;
    put_line(text, "sw ra,12(sp)")?;
    put_additions(text, function.constants.as_slice())?;
    put_call(text, number, place + 1, &next.kind)?;
    put_line(text, "lw ra,12(sp)")?;
    put_line(text, "addi sp,sp,16")?;
    put_line(text, "ret")
}

// Appends the body of a function.
fn put_body(
    text: &mut String,
    number: u32,
    place: usize,
    function: &Function,
    next: Option<&Function>,
) -> Result<(), AllocError>
    requires { place < 2 ^ 32 }
    ensures { OnOk result (string_bytes text.new ≡ string_bytes text.old ++
        body_lines number place function.now (option_map (λ other. other.now) next.entry)) }
{
    match next {
        Some(next) => put_calling(text, number, place, function, next),
        None => {
            put_additions(text, function.constants.as_slice())?;
            put_line(text, "ret")
        }
    }
}

// Appends that the first function is global.
#[tactic(auto, unfolding(crate::specs::Source::line))]
fn put_global(text: &mut String, number: u32, place: usize) -> Result<(), AllocError>
    ensures { OnOk result
        (string_bytes text.new ≡ string_bytes text.old ++ global_lines number place) }
{
    if place == 0 {
        write!(text, ".globl m{number}_f{place}\n")
    } else {
        Ok(())
    }
}

// What is said of a taken function.
fn taken_word(taken: bool) -> &'static str
    ensures { result.now ≡ taken_word taken }
{
    if taken { " taken" } else { "" }
}

// Appends what a function begins with.
#[tactic(auto, unfolding(crate::specs::Source::line))]
fn put_func(text: &mut String, number: u32, place: usize, kind: &Kind) -> Result<(), AllocError>
    ensures { OnOk result
        (string_bytes text.new ≡ string_bytes text.old ++ func_line number place kind.now) }
{
    let node = kind.node;
    let taken = taken_word(kind.taken);
    write!(text, ".func m{number}_f{place} {node}{taken}\n")
}

// Appends a function, with the one behind it.
#[tactic(auto, unfolding(crate::specs::Source::function_lines))]
fn put_function(
    text: &mut String,
    number: u32,
    place: usize,
    function: &Function,
    next: Option<&Function>,
) -> Result<(), AllocError>
    requires { place < 2 ^ 32 }
    ensures { OnOk result (string_bytes text.new ≡ string_bytes text.old ++ function_lines number
        place (Some function.now) (option_map (λ other. other.now) next.entry)) }
{
    put_global(text, number, place)?;
    put_func(text, number, place, &function.kind)?;
    put_body(text, number, place, function, next)?;
    put_line(text, ".endfunc")?;
    Ok(())
}

/// The source of a module, of so many.
#[tactic(auto, unfolding(crate::specs::Source::source_text))]
pub fn source_of(alloc: Global, count: u32, drawn: &Drawn) -> Result<String, AllocError>
    requires some { 1 ≤ count }
    requires few { length drawn.now.functions < 2 ^ 32 }
    ensures { IfOk result (λ text. string_bytes text ≡ source_text count drawn.now) }
{
    let mut text = String::new(alloc);
    put_nodes(&mut text)?;
    let functions = drawn.functions.as_slice();
    for place in 0..functions.len() {
        put_function(
            &mut text,
            drawn.number,
            place,
            &functions[place],
            functions.get(place + 1),
        )?;
    }
    if drawn.number == 0 {
        put_main(&mut text, count)?;
    }
    Ok(text)
}
