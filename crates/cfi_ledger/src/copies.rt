//! A plan in memory of its own.

ghost use Rattle.std.specs.Prelude.{◌≡◌, IfOk};

use cfi_plan::{Plan, PlanModule};
use cfi_values::{Items, Text};
use std::alloc::{AllocError, Global};

// The same text.
fn text_copy(alloc: Global, text: &Text) -> Result<Text, AllocError>
    ensures { IfOk result (λ copy. copy ≡ text.now) }
{
    Ok(Text::from_string(String::from_str(alloc, text.as_str())?))
}

// The same module of a plan.
fn module_copy(alloc: Global, one: &PlanModule) -> Result<PlanModule, AllocError>
    ensures { IfOk result (λ copy. copy ≡ one.now) }
{
    Ok(PlanModule {
        name: text_copy(alloc, &one.name)?,
        file: text_copy(alloc, &one.file)?,
        start: one.start,
    })
}

// The same modules.
fn modules_copy(alloc: Global, modules: &[PlanModule]) -> Result<Vec<PlanModule>, AllocError>
    ensures { IfOk result (λ copy. copy.items ≡ modules.now) }
{
    let mut copy = Vec::with_capacity(alloc, modules.len())?;
    for one in modules {
        copy.push(module_copy(alloc, one)?)?;
    }
    Ok(copy)
}

// The same texts.
fn texts_copy(alloc: Global, texts: &[Text]) -> Result<Vec<Text>, AllocError>
    ensures { IfOk result (λ copy. copy.items ≡ texts.now) }
{
    let mut copy = Vec::with_capacity(alloc, texts.len())?;
    for text in texts {
        copy.push(text_copy(alloc, text)?)?;
    }
    Ok(copy)
}

/// The same plan.
pub(crate) fn plan_copy(alloc: Global, plan: &Plan) -> Result<Plan, AllocError>
    ensures { IfOk result (λ copy. copy ≡ plan.now) }
{
    Ok(Plan {
        code_words: plan.code_words,
        versions: plan.versions,
        first: plan.first,
        fuel: plan.fuel,
        modules: Items::from_vec(modules_copy(alloc, plan.modules.as_slice())?),
        guests: Items::from_vec(texts_copy(alloc, plan.guests.as_slice())?),
        script: Items::from_vec(Vec::from_slice(alloc, plan.script.as_slice())?),
    })
}
