//! Names of files.

ghost use Rattle.std.specs.Prelude.{◌≡◌, ◌≤◌, ◌∷◌, [], length, map, IfOk};
ghost use Rattle.cfi_word.specs.declared.limits.TheConstants.{MAX_FILE_BYTES};
ghost use Rattle.cfi_request.specs.Plans.{named_files, named_files_and, begins_as_plan, run_files, judged_files};

use cfi_plan::{PlanFault, PlanModule, read_plan};
use cfi_values::Text;
use std::alloc::{AllocError, Global};

/// The name of a file.
pub fn text_of(alloc: Global, name: &str) -> Result<Text, AllocError>
    ensures { IfOk result (λ text. text ≡ name.now) }
{
    Ok(Text::from_string(name.to_string(alloc)?))
}

/// A list of one name.
pub fn one_name(alloc: Global, name: &Text) -> Result<Vec<Text>, AllocError>
    ensures { IfOk result (λ names. names.items ≡ name.now ∷ []) }
{
    let mut names = Vec::new(alloc);
    names.push(text_of(alloc, name.as_str())?)?;
    Ok(names)
}

/// A copy of names.
pub fn copies_of(alloc: Global, names: &[Text]) -> Result<Vec<Text>, AllocError>
    ensures { IfOk result (λ copies. copies.items ≡ names.now) }
{
    let mut copies = Vec::new(alloc);
    for name in names {
        copies.push(text_of(alloc, name.as_str())?)?;
    }
    Ok(copies)
}

/// The names that words are.
pub fn names_of(alloc: Global, words: &[&str]) -> Result<Vec<Text>, AllocError>
    ensures { IfOk result (λ names. names.items ≡ map (λ word. word.now) words.now) }
{
    let mut names = Vec::new(alloc);
    for word in words {
        names.push(text_of(alloc, word)?)?;
    }
    Ok(names)
}

// The files of modules, in order.
fn files_of(alloc: Global, modules: &[PlanModule]) -> Result<Vec<Text>, AllocError>
    ensures { IfOk result (λ names. names.items ≡ map (λ one. one.file) modules.now) }
{
    let mut names = Vec::new(alloc);
    for one in modules {
        names.push(text_of(alloc, one.file.as_str())?)?;
    }
    Ok(names)
}

/// The files that the plan of these bytes names, in order: none where they are no plan.
pub fn named_files(alloc: Global, bytes: &[u8]) -> Result<Vec<Text>, AllocError>
    requires short { length bytes.now ≤ MAX_FILE_BYTES }
    ensures { IfOk result (λ names. names.items ≡ named_files bytes.now) }
{
    match read_plan(alloc, bytes) {
        Ok(plan) => files_of(alloc, plan.modules.as_slice()),
        Err(PlanFault::Memory) => Err(AllocError),
        Err(_) => Ok(Vec::new(alloc)),
    }
}

/// The files that the plan of these bytes names, in order, and then this one: none where they are no plan.
pub fn named_files_and(alloc: Global, bytes: &[u8], last: &Text) -> Result<Vec<Text>, AllocError>
    requires short { length bytes.now ≤ MAX_FILE_BYTES }
    ensures { IfOk result (λ names. names.items ≡ named_files_and bytes.now last.now) }
{
    match read_plan(alloc, bytes) {
        Ok(plan) => {
            let mut names = files_of(alloc, plan.modules.as_slice())?;
            names.push(text_of(alloc, last.as_str())?)?;
            Ok(names)
        }
        Err(PlanFault::Memory) => Err(AllocError),
        Err(_) => Ok(Vec::new(alloc)),
    }
}

/// Whether a file that is to be run is a plan: it begins as one. Any other is a bare file.
pub fn begins_as_plan(bytes: &[u8]) -> bool
    ensures { result ≡ begins_as_plan bytes.now }
{
    bytes.starts_with(b"plan ")
}

/// The files that a file of these bytes names where it is to be run: those of a plan, and none where it is a bare file.
pub fn run_files(alloc: Global, bytes: &[u8]) -> Result<Vec<Text>, AllocError>
    requires short { length bytes.now ≤ MAX_FILE_BYTES }
    ensures { IfOk result (λ names. names.items ≡ run_files bytes.now) }
{
    if begins_as_plan(bytes) {
        return named_files(alloc, bytes);
    }
    Ok(Vec::new(alloc))
}

/// The files that a file of these bytes names where a report of its run is judged, in order, and then the report's.
///
/// None where it is no plan, or a bare file that is no whole words: then it is refused before the report is read.
pub fn judged_files(alloc: Global, bytes: &[u8], report: &Text) -> Result<Vec<Text>, AllocError>
    requires short { length bytes.now ≤ MAX_FILE_BYTES }
    ensures { IfOk result (λ names. names.items ≡ judged_files bytes.now report.now) }
{
    if begins_as_plan(bytes) {
        return named_files_and(alloc, bytes, report);
    }
    if bytes.len() % 4 == 0 {
        return one_name(alloc, report);
    }
    Ok(Vec::new(alloc))
}
