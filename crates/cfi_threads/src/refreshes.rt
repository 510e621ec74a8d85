//! Refreshes, beside which guests run.

ghost use Rattle.cfi_threads.specs.Like.{IsLike};

use crate::marks::{Mark, TURNS};
use cfi_tables::{Keeper, TableName, Tables, UpdateFault};
use cfi_word::Image;

/// One refresh.
pub fn refresh_once<N: TableName>(
    tables: &Tables<N>,
    keeper: &mut Keeper<N>,
    image: &Image,
) -> Result<u32, UpdateFault>
    requires { IsLike image.now keeper.old.entries }
    ensures { IsLike image.now keeper.new.entries }
{
    keeper.update(tables, image, 0, 7)
}

/// How many of so many refreshes are made.
pub fn refresh<N: TableName>(
    tables: &Tables<N>,
    mut keeper: Keeper<N>,
    image: &Image,
    turns: u32,
) -> (Keeper<N>, u32)
    requires { IsLike image.now keeper.entries }
    ensures { IsLike image.now result.0.entries }
{
    let mut made = 0;
    for _ in 0..turns {
        if refresh_once(tables, &mut keeper, image).is_ok() && made < turns {
            made += 1;
        }
    }
    (keeper, made)
}

/// How many of twice so many refreshes are made, the second half once both marks are put.
pub fn refresh_around<N: TableName>(
    tables: &Tables<N>,
    keeper: Keeper<N>,
    image: &Image,
    turns: u32,
    marks: (&Mark, &Mark),
) -> (Keeper<N>, u32)
    requires { IsLike image.now keeper.entries }
{
    let (keeper, before) = refresh(tables, keeper, image, turns);
    if !(marks.0.came() && marks.1.came()) {
        return (keeper, before);
    }
    let (keeper, behind) = refresh(tables, keeper, image, turns);
    (keeper, before.saturating_add(behind))
}

/// Makes so many refreshes, tries again where one is not admitted, and puts its mark then. How many were made.
pub fn insist<N: TableName>(
    tables: &Tables<N>,
    mut keeper: Keeper<N>,
    image: &Image,
    turns: u32,
    refused: &Mark,
) -> (Keeper<N>, u32)
    requires { IsLike image.now keeper.entries }
{
    let mut made = 0;
    for _ in 0..TURNS {
        if made >= turns {
            break;
        }
        if refresh_once(tables, &mut keeper, image).is_ok() {
            made += 1;
        } else {
            refused.put();
        }
    }
    (keeper, made)
}

// A guest comes, is told of a refresh, and goes. Whether it was told of the epoch of this refresh.
fn come_and_go_once<N: TableName>(tables: &Tables<N>, keeper: &mut Keeper<N>, image: &Image) -> bool
    requires { IsLike image.now keeper.old.entries }
    ensures { IsLike image.now keeper.new.entries }
{
    let Ok(mut pass) = keeper.admit(tables) else {
        return false;
    };
    let made = refresh_once(tables, keeper, image);
    keeper.note(tables, &mut pass);
    let seen = keeper.release(tables, pass);
    made == Ok(seen.epoch)
}

/// So many guests come, are told of a refresh each, and go. How many were told of its epoch.
pub fn come_and_go<N: TableName>(
    tables: &Tables<N>,
    mut keeper: Keeper<N>,
    image: &Image,
    turns: u32,
) -> (Keeper<N>, u32)
    requires { IsLike image.now keeper.entries }
{
    let mut gone = 0;
    for _ in 0..turns {
        if come_and_go_once(tables, &mut keeper, image) && gone < turns {
            gone += 1;
        }
    }
    (keeper, gone)
}
