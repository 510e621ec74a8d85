//! Guests that hinder updates, and guests that come and go, beside others that go on.

ghost use Rattle.std.specs.Prelude.{◌≡◌, false};
ghost use Rattle.cfi_threads.specs.Like.{IsLike};

use crate::marks::{Mark, TURNS};
use crate::refreshes::{come_and_go, insist};
use crate::tables::{Reader, jump_image, load};
use cfi_tables::{Blank, Keeper, TableName, Tables};
use cfi_word::{Image, Layout};
use std::alloc::{AllocError, Global};
use std::marker::Brand;
use std::thread::{Threads, join};

// Passes quiescent points once the mark is put, until one finds the last epoch.
fn quiesce<N: TableName>(
    tables: &Tables<N>,
    mut reader: Reader<N>,
    last: u32,
    begin: &Mark,
) -> Reader<N> {
    reader.sound = false;
    if !begin.came() {
        return reader;
    }
    for _ in 0..TURNS {
        tables.park(&mut reader.pass);
        if tables.quiet(&mut reader.pass) == last {
            reader.sound = true;
            break;
        }
    }
    reader
}

// Two guests pass quiescent points once an update was not admitted, while the keeper goes on. How many updates were
// made, whether one was not admitted, and whether both guests have found the last epoch.
fn hindered<N: TableName + Send + Sync, R: Threads + Sync>(
    rt: &R,
    blank: Blank,
    image: Image,
) -> (u32, bool, bool)
    requires table { blank.table ≡ N.table }
    requires key { blank.key ≡ N.key }
    requires image { image ≡ N.key.image }
{
    let (tables, mut keeper) = Tables::<N>::open(blank);
    let (Ok(first), Ok(second)) = (keeper.admit(&tables), keeper.admit(&tables)) else {
        return (0, false, false);
    };
    let one = Reader {
        pass: first,
        sound: true,
    };
    let two = Reader {
        pass: second,
        sound: true,
    };
    let refused = Mark::new();
    let ((_, made), (one, two)) = join(
        rt,
        || -> (Keeper<N>, u32)
            requires { IsLike image keeper.entries }
        { insist(&tables, keeper, &image, 20, &refused) },
        || -> (Reader<N>, Reader<N>) {
            join(
                rt,
                || -> Reader<N> { quiesce(&tables, one, 20, &refused) },
                || -> Reader<N> { quiesce(&tables, two, 20, &refused) },
            )
        },
    );
    (made, refused.is_put(), one.sound && two.sound)
}

// A guest loads while others come, are told of a refresh each, and go. How many did, and whether all was sound.
fn passing<N: TableName + Send + Sync, R: Threads + Sync>(
    rt: &R,
    blank: Blank,
    image: Image,
) -> (u32, bool)
    requires table { blank.table ≡ N.table }
    requires key { blank.key ≡ N.key }
    requires image { image ≡ N.key.image }
{
    let (tables, mut keeper) = Tables::<N>::open(blank);
    let Ok(pass) = keeper.admit(&tables) else {
        return (0, false);
    };
    let reader = Reader { pass, sound: true };
    let seen = Mark::new();
    let ((_, gone), reader) = join(
        rt,
        || -> (Keeper<N>, u32)
            requires { IsLike image keeper.entries }
        { come_and_go(&tables, keeper, &image, 100) },
        || -> Reader<N>
            requires { reader.pass.parked ≡ false }
        { load(&tables, reader, 100, &seen) },
    );
    (gone, reader.sound && seen.is_put())
}

/// Under three versions, 20 updates beside two guests: some are admitted, and some are not.
pub fn two_guests_beside_hindered_updates<R: Threads + Sync>(
    rt: &R,
    alloc: Global,
) -> Result<bool, AllocError> {
    let layout = Layout::new(1024).unwrap();
    let image = jump_image(alloc, &layout, 0)?;
    let blank = Blank::new(alloc, layout, 3, 0, &image)?;
    let found = hindered::<Brand, R>(rt, blank, image);
    Ok(found == (20, true, true))
}

/// A guest loads while 100 others come and go.
pub fn a_guest_beside_others_that_go<R: Threads + Sync>(
    rt: &R,
    alloc: Global,
) -> Result<bool, AllocError> {
    let layout = Layout::new(1024).unwrap();
    let image = jump_image(alloc, &layout, 0)?;
    let blank = Blank::new(alloc, layout, 16384, 0, &image)?;
    let found = passing::<Brand, R>(rt, blank, image);
    Ok(found == (100, true))
}
