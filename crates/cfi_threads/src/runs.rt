//! Guests beside a keeper, over one table.

ghost use Rattle.std.specs.Prelude.{◌≡◌, IfOk, OnOk, false};
ghost use Rattle.cfi_model.specs.Closed.{IsStartIn};
ghost use Rattle.cfi_model.specs.History.{IsStart};
ghost use Rattle.cfi_runner.specs.Seen.{IsSight, SeesMore, history_seen};
ghost use Rattle.cfi_threads.specs.Like.{IsLike};
ghost use Rattle.cfi_threads.specs.Starts.{StartsAt};

use crate::image::call_image;
use crate::refreshes::refresh;
use cfi_runner::{Pause, run_until};
use cfi_tables::{Blank, Keeper, Pass, TableName, Tables};
use cfi_word::services::{EXIT, QUIET};
use cfi_word::{Image, Layout};
use rv_guest::{Guest, Log, Stop};
use std::alloc::{AllocError, Global};
use std::marker::Brand;
use std::thread::{Threads, join};

// Where the image's load, its call and its return begin.
const LOAD: u32 = 64;

const MAIN: u32 = 88;

const RETURN: u32 = 172;

// Runs a guest until it has stopped; quiets and the exit are served.
fn drive<N: TableName>(
    alloc: Global,
    tables: &Tables<N>,
    pass: &mut Pass<N>,
    number: u32,
    entry: u32,
    fuel: u32,
) -> Result<(Guest, Pause), AllocError>
    requires sight { IsSight N.key pass.old.sight }
    requires start { IsStart (history_seen N.key pass.old.sight) entry }
    requires outside { pass.old.parked ≡ false }
    ensures sees { OnOk result (SeesMore N.key pass.old.sight pass.new.sight) }
    ensures outside { OnOk result (pass.new.parked ≡ false) }
{
    let mut guest = Guest::open(alloc, number, entry, &[])?;
    let first = run_until(&mut guest, tables, pass, fuel);
    match first {
        Pause::Service(QUIET) => {
            tables.park(pass);
            guest.proceed();
            let _ = tables.quiet(pass);
            let second = run_until(&mut guest, tables, pass, fuel);
            match second {
                Pause::Service(EXIT) => guest.exit(),
                _ => {}
            }
            Ok((guest, second))
        }
        _ => Ok((guest, first)),
    }
}

// Whether the guest has called and returned, passed a quiescent point and exited, under policy 0, and how many of its
// tries it has repeated. Without a repeated one it fetches 26 instructions.
fn repeats(guest: &Guest) -> Option<u32> {
    let picks = Log::Pick {
        policy: 0,
        count: 2,
    };
    let more = guest.steps().checked_sub(26)?;
    let all = guest.stop() == Some(Stop::Exit(0))
        && guest.units() == 8
        && guest.log() == [picks].as_slice()
        && more % 9 == 0;
    if all { Some(more / 9) } else { None }
}

// A guest's pass, whether all its guests ended well, and whether one of them has repeated a try.
#[derive(Drop)]
struct Reader<N: TableName> {
    pass: Pass<N>,
    sound: bool,
    repeated: bool,
}

// Runs one guest after the other, until one has repeated a try, or so many have run.
fn run_guests<N: TableName>(
    alloc: Global,
    tables: &Tables<N>,
    mut reader: Reader<N>,
    guests: u32,
) -> Result<Reader<N>, AllocError>
    requires sight { IsSight N.key reader.pass.sight }
    requires start { IsStart (history_seen N.key reader.pass.sight) 88 }
    requires outside { reader.pass.parked ≡ false }
{
    for _ in 0..guests {
        let (guest, _) = drive(alloc, tables, &mut reader.pass, 0, MAIN, 1_000_000_000)?;
        match repeats(&guest) {
            Some(0) => {}
            Some(_) => {
                reader.repeated = true;
                return Ok(reader);
            }
            None => reader.sound = false,
        }
    }
    Ok(reader)
}

// Waits until an update is in force, for so many turns at most.
fn await_update<N: TableName>(tables: &Tables<N>, pass: &mut Pass<N>, turns: u32)
    requires sight { IsSight N.key pass.old.sight }
    requires outside { pass.old.parked ≡ false }
    ensures sees { SeesMore N.key pass.old.sight pass.new.sight }
    ensures outside { pass.new.parked ≡ false }
{
    for _ in 0..turns {
        tables.park(pass);
        if tables.quiet(pass) > 0 {
            return;
        }
    }
}

// Guests run while the keeper refreshes, and from the first refresh on where they are to wait for it. How many
// refreshes were made, whether all guests ended well, and whether a try was repeated.
fn beside<N: TableName + Send + Sync, R: Threads + Sync>(
    rt: &R,
    alloc: Global,
    blank: Blank,
    image: Image,
    turns: u32,
    waits: u32,
    guests: u32,
) -> Result<(u32, bool, bool), AllocError>
    requires table { blank.table ≡ N.table }
    requires key { blank.key ≡ N.key }
    requires image { image ≡ N.key.image }
    requires start { IsStartIn N.key.image 88 }
{
    let (tables, mut keeper) = Tables::<N>::open(blank);
    let Ok(pass) = keeper.admit(&tables) else {
        return Ok((0, false, false));
    };
    let reader = Reader {
        pass,
        sound: true,
        repeated: false,
    };
    let ((_, made), reader) = join(
        rt,
        || -> (Keeper<N>, u32)
            requires { IsLike image keeper.entries }
        { refresh(&tables, keeper, &image, turns) },
        || -> Result<Reader<N>, AllocError>
            requires sight { IsSight N.key reader.pass.sight }
            requires start { IsStart (history_seen N.key reader.pass.sight) 88 }
            requires outside { reader.pass.parked ≡ false }
        { wait_and_run(alloc, &tables, reader, waits, guests) },
    );
    let reader = reader?;
    Ok((made, reader.sound, reader.repeated))
}

// Waits for an update, for so many turns at most, and then runs guests.
fn wait_and_run<N: TableName>(
    alloc: Global,
    tables: &Tables<N>,
    mut reader: Reader<N>,
    waits: u32,
    guests: u32,
) -> Result<Reader<N>, AllocError>
    requires sight { IsSight N.key reader.pass.sight }
    requires start { IsStart (history_seen N.key reader.pass.sight) 88 }
    requires outside { reader.pass.parked ≡ false }
{
    await_update(tables, &mut reader.pass, waits);
    run_guests(alloc, tables, reader, guests)
}

// How a guest of this number pauses that begins at this entry with so much fuel, and how many units and steps it has.
fn pause_at<N: TableName>(
    alloc: Global,
    blank: Blank,
    number: u32,
    entry: u32,
    fuel: u32,
) -> Result<Option<(Pause, u32, u32)>, AllocError>
    requires table { blank.table ≡ N.table }
    requires key { blank.key ≡ N.key }
    requires start { IsStartIn N.key.image entry }
{
    let (tables, mut keeper) = Tables::<N>::open(blank);
    let Ok(mut pass) = keeper.admit(&tables) else {
        return Ok(None);
    };
    let (guest, pause) = drive(alloc, &tables, &mut pass, number, entry, fuel)?;
    Ok(Some((pause, guest.units(), guest.steps())))
}

// The same over tables of the image.
fn paused(
    alloc: Global,
    number: u32,
    entry: u32,
    fuel: u32,
) -> Result<Option<(Pause, u32, u32)>, AllocError>
    requires { StartsAt entry }
{
    let layout = Layout::new(1024).unwrap();
    let image = call_image(alloc, &layout)?;
    let blank = Blank::new(alloc, layout, 3, 0, &image)?;
    pause_at::<Brand>(alloc, blank, number, entry, fuel)
}

/// Guests run to their exit beside 20 refreshes.
pub fn a_guest_beside_refreshes<R: Threads + Sync>(
    rt: &R,
    alloc: Global,
) -> Result<bool, AllocError> {
    let layout = Layout::new(1024).unwrap();
    let image = call_image(alloc, &layout)?;
    let blank = Blank::new(alloc, layout, 16384, 0, &image)?;
    let found = beside::<Brand, R>(rt, alloc, blank, image, 20, 0, 20)?;
    Ok((found.0, found.1) == (20, true))
}

/// A guest repeats a try while an update has stored its Tary words and not yet its Bary words.
pub fn a_try_beside_refreshes_is_repeated<R: Threads + Sync>(
    rt: &R,
    alloc: Global,
) -> Result<bool, AllocError> {
    let layout = Layout::new(1024).unwrap();
    let image = call_image(alloc, &layout)?;
    let blank = Blank::new(alloc, layout, 16384, 0, &image)?;
    let found = beside::<Brand, R>(rt, alloc, blank, image, 15_000, 100_000_000, 1_000)?;
    Ok(found == (15_000, true, true))
}

/// Each pause comes where it is due.
pub fn each_pause(alloc: Global) -> Result<bool, AllocError> {
    // A load at 0x40000002, one past its fuel and one with it, a return to address 0, and an exit.
    let align = paused(alloc, 2, LOAD, 100)?;
    let before = paused(alloc, 0, LOAD, 5)?;
    let after = paused(alloc, 0, LOAD, 6)?;
    let halt = paused(alloc, 0, RETURN, 100)?;
    let exit = paused(alloc, 0, MAIN, 100)?;
    Ok(
        align == Some((Pause::Align(0x40000002), 1, 6))
            && before == Some((Pause::Fuel, 0, 5))
            && after == Some((Pause::Fuel, 1, 6))
            && halt == Some((Pause::Halt(0), 1, 13))
            && exit == Some((Pause::Service(EXIT), 8, 26)),
    )
}

/// Fuel stops a guest before each fetch, with the units that have ended by then.
pub fn each_fuel(alloc: Global) -> Result<bool, AllocError> {
    // The units behind the guest by its steps: the load ends with step 6, the call's check with 18, the return's
    // with 28.
    for fuel in 1..=30 {
        let units = match fuel {
            0..=5 => 0,
            6 => 1,
            7 => 2,
            8..=17 => 3,
            18..=27 => 4,
            _ => fuel - 23,
        };
        let found = paused(alloc, 0, LOAD, fuel)?;
        if found != Some((Pause::Fuel, units, fuel)) {
            return Ok(false);
        }
    }
    Ok(true)
}
