//! The calls of a plan's script.

ghost use Rattle.std.specs.Prelude.{◌≡◌, ◌⊎◌, ◌<◌, ◌^◌, true, false, Some, length, slice_get};
ghost use Rattle.cfi_valid.specs.Script.{Load, Refresh, Retire, calls_of, script_calls};
ghost use Rattle.cfi_engine.specs.inner.Script.{HasMadeNext, IsScriptMade, Makes};

use cfi_io::Gate;
use cfi_loader::{Due, Loader, LoaderName};
use cfi_plan::ScriptLine;
use cfi_tables::Tables;
use std::sync::{Mutex, Wait};

// How many calls a line of a script makes.
fn calls_in_line(line: &ScriptLine) -> u32
    ensures { result ≡ length (calls_of line.now) }
{
    match line {
        ScriptLine::Load(_) | ScriptLine::Retire(_) => 1,
        ScriptLine::Refresh(count) => *count,
    }
}

/// How many calls a script makes.
pub(crate) fn count_calls(script: &[ScriptLine]) -> u32
    requires { length (script_calls script.now) < 2 ^ 32 }
    ensures { result ≡ length (script_calls script.now) }
{
    let mut calls = 0;
    for line in script {
        calls += calls_in_line(line);
    }
    calls
}

// Makes the load that is due.
fn make_load<N: LoaderName>(loader: &mut Loader<N>, tables: &Tables<N>, number: u32)
    requires due { slice_get loader.old.left 0 ≡ Some (Load number) }
    requires known { number < length N.plan.modules }
    ensures { Makes N.key (Load number) loader.old loader.new }
{
    drop(loader.load(tables, number));
}

// Makes the retirement that is due.
fn make_retirement<N: LoaderName>(loader: &mut Loader<N>, tables: &Tables<N>, number: u32)
    requires due { slice_get loader.old.left 0 ≡ Some (Retire number) }
    requires known { number < length N.plan.modules }
    ensures { Makes N.key (Retire number) loader.old loader.new }
{
    let _ = loader.retire(tables, number);
}

// Makes the refresh that is due.
fn make_refresh<N: LoaderName>(loader: &mut Loader<N>, tables: &Tables<N>)
    requires { slice_get loader.old.left 0 ≡ Some Refresh }
    ensures { Makes N.key Refresh loader.old loader.new }
{
    let _ = loader.refresh(tables);
}

/// Makes the script's next call. Whether there was one, and memory was not missing.
pub(crate) fn make_next<N: LoaderName>(loader: &mut Loader<N>, tables: &Tables<N>) -> bool
    ensures made { result ≡ true → HasMadeNext N.key loader.old loader.new }
    ensures none { result ≡ false → (loader.new.starved ≡ true) ⊎ IsScriptMade N.plan loader.new }
{
    if loader.starved() {
        return false;
    }
    match loader.due() {
        Some(Due::Load(number)) => make_load(loader, tables, number),
        Some(Due::Retire(number)) => make_retirement(loader, tables, number),
        Some(Due::Refresh) => make_refresh(loader, tables),
        None => return false,
    }
    !loader.starved()
}

/// Makes the script's calls, each under the lock, which is given back between them; the gate is told of each before.
///
/// There are at most so many, and none after one that found no memory.
pub(crate) fn make_calls<N: LoaderName, G: Gate, R: Wait>(
    rt: &R,
    tables: &Tables<N>,
    loader: &Mutex<Loader<N>>,
    gate: &G,
    calls: u32,
) {
    for call in 0..calls {
        gate.line(call);
        if !make_next(&mut loader.lock(rt), tables) {
            return;
        }
    }
}

/// Makes the calls that are left of the script, unless memory was missing.
pub(crate) fn make_rest<N: LoaderName>(loader: &mut Loader<N>, tables: &Tables<N>)
    ensures { loader.new.starved ≡ false → IsScriptMade N.plan loader.new }
{
    while make_next(loader, tables) {}
}
