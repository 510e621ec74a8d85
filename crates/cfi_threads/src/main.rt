//! Tests of what runs on threads: a keeper, passes and guests beside each other, over one table, and whole plans.
//!
//! Stands on `cfi_engine`, `cfi_commands`, `cfi_runner` and `cfi_tables`; nothing stands on it. They are a program, so
//! that they are proved once and run as both compilers build them; `stdout` has what it must print, and `data/` the
//! plans that are run, their sources and their reports. Proved: that each keeps what the calls take for granted.
//! Tested: two guests load and fetch beside 100 updates, and find several epochs; beside quiescent points of two
//! guests, under three versions, some updates are admitted and some are not; a guest loads while others come, are told
//! of updates, and go; a guest fetches beside an update that adds code, and one without quiescent points hinders an
//! update; guests run beside refreshes, one of them repeats a try, and each pause comes; two guests of a plan are in
//! their services at once, its script goes on beside a guest, the script and a guest load one module in both orders;
//! under three versions six refreshes are made while a guest is held in a service, and it checks on then; a guest that is
//! in a module while it is retired halts at its next check and another one goes on, and one that has left it exits; a
//! guest runs to its end while the loader's lock is held, and so does one that has opened as often as it may and asks for each
//! service that needs no loader. Open: nothing.
#![tactic(auto)]

mod files;
mod gates;
mod image;
mod marks;
mod plans;
mod refreshes;
mod runs;
mod seats;
mod tables;

use crate::gates::{Crossing, Meeting, Parking, Weaving};
use crate::plans::Texts;
use std::{fs, io};

// Prints whether a test came out as it must.
fn tell(rt: &HostRuntime, name: &str, is_right: bool) -> io::Result<()> {
    println!(rt;
        "{name}: {}",
        if is_right { "as it must be" } else { "differs" }
    )
}

// The files of a plan and of its modules' sources.
#[derive(Clone, Copy, Drop)]
struct PlanFiles {
    plan: &'static str,
    sources: &'static [&'static str],
}

// The texts of a plan and of the sources of its modules.
fn texts(rt: &HostRuntime, files: &PlanFiles) -> io::Result<Texts> {
    let mut sources = Vec::new(rt.alloc());
    for name in files.sources {
        sources.push(fs::read(rt, *name)?)?;
    }
    Ok(Texts {
        plan: fs::read(rt, files.plan)?,
        sources,
    })
}

// Two guests that pass a quiescent point.
const TWO: PlanFiles = PlanFiles {
    plan: "two.plan",
    sources: &["quiet.s"],
};

// A guest that passes a quiescent point, and two refreshes.
const SCRIPT: PlanFiles = PlanFiles {
    plan: "script.plan",
    sources: &["quiet.s"],
};

// A guest opens the module that the script loads twice.
const LOAD: PlanFiles = PlanFiles {
    plan: "load.plan",
    sources: &["open.s", "plug.s"],
};

// A guest asks for a service under three versions, and seven refreshes are made.
const PARKED: PlanFiles = PlanFiles {
    plan: "parked.plan",
    sources: &["parked.s"],
};

// A guest is in a module while it is retired, and another one calls elsewhere.
const INSIDE: PlanFiles = PlanFiles {
    plan: "inside.plan",
    sources: &["caller.s", "plugin.s"],
};

// A guest has returned from the module before it is retired.
const LEFT: PlanFiles = PlanFiles {
    plan: "left.plan",
    sources: &["caller.s", "plugin.s"],
};

// A guest calls and returns, and passes a quiescent point.
const CALL: PlanFiles = PlanFiles {
    plan: "call.plan",
    sources: &["call.s"],
};

// A guest opens as often as it may, and asks for each other service.
const SERVED: PlanFiles = PlanFiles {
    plan: "served.plan",
    sources: &["served.s"],
};

fn main(rt: HostRuntime) -> io::Result<()> {
    tell(
        &rt,
        "two guests beside refreshes",
        tables::two_guests_beside_refreshes(&rt, rt.alloc())?,
    )?;
    tell(
        &rt,
        "two guests beside hindered updates",
        seats::two_guests_beside_hindered_updates(&rt, rt.alloc())?,
    )?;
    tell(
        &rt,
        "a guest beside others that go",
        seats::a_guest_beside_others_that_go(&rt, rt.alloc())?,
    )?;
    tell(
        &rt,
        "a guest beside an update",
        tables::a_guest_beside_an_update(&rt, rt.alloc())?,
    )?;
    tell(
        &rt,
        "a guest without quiescent points",
        tables::a_guest_without_quiescent_points(rt.alloc())?,
    )?;
    tell(
        &rt,
        "a guest beside refreshes",
        runs::a_guest_beside_refreshes(&rt, rt.alloc())?,
    )?;
    tell(
        &rt,
        "a try beside refreshes is repeated",
        runs::a_try_beside_refreshes_is_repeated(&rt, rt.alloc())?,
    )?;
    tell(&rt, "each pause", runs::each_pause(rt.alloc())?)?;
    tell(&rt, "each fuel", runs::each_fuel(rt.alloc())?)?;
    let report = fs::read(&rt, "two.report")?;
    tell(
        &rt,
        "two guests at once",
        plans::is_run_to(&rt, rt.alloc(), texts(&rt, &TWO)?, &Meeting::new(), report),
    )?;
    let report = fs::read(&rt, "script.report")?;
    tell(
        &rt,
        "a script beside a guest",
        plans::is_run_to(
            &rt,
            rt.alloc(),
            texts(&rt, &SCRIPT)?,
            &Weaving::new(),
            report,
        ),
    )?;
    let report = fs::read(&rt, "load.report")?;
    tell(
        &rt,
        "a guest's load before the script's",
        plans::is_run_to(&rt, rt.alloc(), texts(&rt, &LOAD)?, &Weaving::new(), report),
    )?;
    let report = fs::read(&rt, "loaded.report")?;
    tell(
        &rt,
        "the script's load before a guest's",
        plans::is_run_to(
            &rt,
            rt.alloc(),
            texts(&rt, &LOAD)?,
            &Crossing::new(),
            report,
        ),
    )?;
    let report = fs::read(&rt, "parked.report")?;
    tell(
        &rt,
        "a guest parked beside refreshes",
        plans::is_run_to(
            &rt,
            rt.alloc(),
            texts(&rt, &PARKED)?,
            &Parking::new(6),
            report,
        ),
    )?;
    let report = fs::read(&rt, "inside.report")?;
    tell(
        &rt,
        "a guest in a module that is retired",
        plans::is_run_to(
            &rt,
            rt.alloc(),
            texts(&rt, &INSIDE)?,
            &Parking::new(1),
            report,
        ),
    )?;
    let report = fs::read(&rt, "left.report")?;
    tell(
        &rt,
        "a guest that has left the module",
        plans::is_run_to(
            &rt,
            rt.alloc(),
            texts(&rt, &LEFT)?,
            &Crossing::new(),
            report,
        ),
    )?;
    tell(
        &rt,
        "a guest beside a held lock",
        plans::a_guest_beside_a_held_lock(&rt, rt.alloc(), texts(&rt, &CALL)?),
    )?;
    tell(
        &rt,
        "services beside a held lock",
        plans::services_beside_a_held_lock(&rt, rt.alloc(), texts(&rt, &SERVED)?),
    )
}
