//! Calls of the lower crates, beside values from outside: assemblers, a linker, the manual, MCFI, or a hand.
//!
//! Stands on the crates up to `cfi_retire` and `cfi_world`; nothing stands on it. It is a program of its own, so that
//! those crates are proved once; `stdout` has what it must print. Each function has its values and says where they come
//! from, and answers whether the calls agree. The outside is called too, in the folder where the program runs. Proved:
//! that each keeps what the calls take for granted. Open: nothing.
#![tactic(auto)]

mod classes;
mod flows;
mod guests;
mod imports;
mod instructions;
mod machines;
mod made;
mod outside;
mod policies;
mod relocations;
mod retiring;
mod types;
mod units;
mod words;
mod worlds;

use std::alloc::Global;
use std::io;

// Prints whether calls agree with the values beside them.
fn tell(rt: &HostRuntime, name: &str, is_right: bool) -> io::Result<()> {
    println!(rt; "{name}: {}", if is_right { "ok" } else { "differs" })
}

// Words: of instructions, tables, units and relocations.
fn tell_words(rt: &HostRuntime, alloc: Global) -> io::Result<()> {
    tell(rt, "readers of instruction words", instructions::readers())?;
    tell(rt, "IDs", words::ids())?;
    tell(rt, "packed words", words::packed_words())?;
    tell(rt, "layouts of tables", words::layouts(alloc)?)?;
    tell(rt, "lists", words::lists(alloc)?)?;
    tell(rt, "checks", units::checks())?;
    tell(rt, "a spelled check", units::spelled_check(alloc)?)?;
    tell(rt, "spellings", units::spellings(alloc)?)?;
    tell(rt, "logs and answers", units::answers(alloc)?)?;
    tell(rt, "relocated words", relocations::words())?;
    tell(rt, "relocated calls", relocations::pairs())
}

// The policy machine.
fn tell_machines(rt: &HostRuntime, alloc: Global) -> io::Result<()> {
    let checks = machines::checks::a_check_passes(alloc)?;
    tell(rt, "a check passes", checks)?;
    let picks = machines::checks::picks_are_counted(alloc)?;
    tell(rt, "picks are counted", picks)?;
    let halts = machines::checks::a_check_halts(alloc)?;
    tell(rt, "a check halts", halts)?;
    let before = machines::checks::a_check_halts_before_the_tables(alloc)?;
    tell(rt, "a check halts before the tables", before)?;
    tell(rt, "an open", machines::services::open(alloc)?)
}

// Guests of the raw machine.
fn tell_guests(rt: &HostRuntime, alloc: Global) -> io::Result<()> {
    let passes = guests::checks::a_check_passes(alloc)?;
    tell(rt, "a guest's check passes", passes)?;
    let again = guests::checks::a_check_tries_again_and_halts(alloc)?;
    tell(rt, "a guest's check tries again and halts", again)?;
    let misaligned = guests::checks::a_misaligned_check_halts(alloc)?;
    tell(rt, "a guest's misaligned check halts", misaligned)?;
    let past = guests::checks::a_check_past_the_code_halts(alloc)?;
    tell(rt, "a guest's check past the code halts", past)?;
    tell(rt, "a guest's jumps", guests::instructions::jumps(alloc)?)?;
    tell(rt, "a guest's counts", guests::instructions::counts(alloc)?)?;
    tell(rt, "a guest's pages", guests::pages::are_made(alloc)?)?;
    tell(rt, "a guest's open", guests::services::open(alloc)?)
}

// Types, classes, flows, policies and a world.
fn tell_policies(rt: &HostRuntime, alloc: Global) -> io::Result<()> {
    tell(rt, "equal types", types::equal_types(alloc)?)?;
    tell(rt, "wider types", types::wider_types(alloc)?)?;
    tell(rt, "labels", classes::labels(alloc)?)?;
    tell(rt, "kept labels", classes::kept(alloc)?)?;
    tell(rt, "joined by chains", classes::joined(alloc)?)?;
    tell(
        rt,
        "edges of tail calls",
        flows::edges_of_tail_calls(alloc)?,
    )?;
    tell(rt, "an image", policies::image(alloc)?)?;
    tell(rt, "policies", policies::policies(alloc)?)?;
    tell(
        rt,
        "edges that a module brings",
        policies::new_edges(alloc)?,
    )?;
    tell(rt, "a book of modules", policies::book(alloc)?)?;
    tell(rt, "first users", retiring::users(alloc)?)?;
    tell(rt, "live modules", retiring::live(alloc)?)?;
    tell(rt, "a cell of no function", imports::lost(alloc)?)?;
    tell(rt, "turns of a world", worlds::turns(alloc)?)
}

// The outside, in memory and real.
fn tell_outside(rt: HostRuntime) -> io::Result<()> {
    let later = outside::a_later_pair_counts(rt.alloc())?;
    tell(&rt, "a later pair counts", later)?;
    let files = outside::files_of_the_current_folder(rt)?;
    tell(&rt, "files of the current folder", files)?;
    let others = outside::a_save_leaves_other_files(rt)?;
    tell(&rt, "a save leaves other files", others)?;
    let long = outside::names_of_the_greatest_length(rt)?;
    tell(&rt, "names of the greatest length", long)?;
    tell(&rt, "standard output", outside::standard_output(rt))
}

fn main(rt: HostRuntime) -> io::Result<()> {
    tell_words(&rt, rt.alloc())?;
    tell_machines(&rt, rt.alloc())?;
    tell_guests(&rt, rt.alloc())?;
    tell_policies(&rt, rt.alloc())?;
    tell_outside(rt)
}
