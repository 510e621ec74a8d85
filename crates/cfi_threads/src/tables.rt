//! A keeper and passes beside each other, over one table.

ghost use Rattle.std.specs.Prelude.{◌≡◌, ◌≤◌, ◌-◌, ◌⊎◌, ◌∷◌, ◌++◌, [], false, replicate, IfOk};
ghost use Rattle.cfi_model.specs.Closed.{IsClosed};
ghost use Rattle.cfi_model.specs.Tables.{IsLoad, KeepsCode};
ghost use Rattle.cfi_tables.specs.Keeping.{entry_by, last_of};
ghost use Rattle.cfi_threads.specs.Like.{IsLike};

use crate::marks::{Mark, TURNS};
use crate::refreshes::{refresh_around, refresh_once};
use cfi_tables::{Blank, Keeper, Pass, Seen, TableName, Tables, UpdateFault};
use cfi_values::Numbers;
use cfi_word::map::{BARY, TARY};
use cfi_word::{FIELD_MAX, Image, Layout, Word, id};
use std::alloc::{AllocError, Global};
use std::marker::Brand;
use std::thread::{Threads, join};

/// The image of the instruction `j .`, whose word is 0x0000006f, and of this word behind it, which is another or 0: no
/// address has a class, and no slot has a target.
pub fn jump_image(alloc: Global, layout: &Layout, next: u32) -> Result<Image, AllocError>
    requires next { (next ≡ 0) ⊎ (next ≡ 111) }
    ensures closed { IfOk result (IsClosed layout.now) }
    ensures code { IfOk result (λ image.
        image.code ≡ (replicate 16 0 ++ 111 ∷ next ∷ []) ++ replicate (layout.now - 18) 0) }
{
    let code_words = layout.code_words() as usize;
    let tary = vec![in alloc; 0; code_words]?;
    let bary = vec![in alloc; FIELD_MAX; layout.slots() as usize]?;
    let mut code = vec![in alloc; 0; 16]?;
    code.push(0x6f)?;
    code.push(next)?;
    let rest = vec![in alloc; 0; code_words - 18]?;
    code.extend_from_slice(rest.as_slice())?;
    Ok(Image {
        tary: Numbers::from_vec(tary),
        bary: Numbers::from_vec(bary),
        code: Numbers::from_vec(code),
    })
}

/// A guest, and whether all that it has found was as it must be.
#[derive(Drop)]
pub struct Reader<N: TableName> {
    pub pass: Pass<N>,
    pub sound: bool,
}

// One try under 16,384 versions: the epoch of its words, where they are the IDs of no class and no target, of epochs in
// order and not before this one.
fn try_once<N: TableName>(tables: &Tables<N>, pass: &mut Pass<N>, latest: u32) -> Option<u32>
    requires { pass.old.parked ≡ false }
    ensures { pass.new.parked ≡ false }
{
    let bary = tables.load(pass, BARY);
    let tary = tables.load(pass, TARY + 64);
    let instruction = tables.fetch(pass, 16);
    let (slot_epoch, epoch) = (Word::epoch_of(bary), Word::epoch_of(tary));
    let is_sound = instruction == 0x6f
        && Word::id_of(bary) == id(FIELD_MAX, slot_epoch % 16384)
        && Word::id_of(tary) == id(0, epoch % 16384)
        && latest <= epoch
        && slot_epoch <= epoch;
    if is_sound { Some(epoch) } else { None }
}

/// Makes tries until one finds the last epoch, and puts its mark where one finds an epoch behind the first. It is sound
/// that each is, and that one finds the last.
pub fn load<N: TableName>(
    tables: &Tables<N>,
    mut reader: Reader<N>,
    last: u32,
    seen: &Mark,
) -> Reader<N>
    requires { reader.pass.parked ≡ false }
{
    reader.sound = false;
    let mut latest = 0;
    for _ in 0..TURNS {
        let Some(epoch) = try_once(tables, &mut reader.pass, latest) else {
            break;
        };
        latest = epoch;
        if latest > 0 {
            seen.put();
        }
        if latest == last {
            reader.sound = true;
            break;
        }
    }
    reader
}

// Two guests load beside 100 refreshes, half of which are made once each guest has found one. How many were
// made, whether all was sound for both guests, and how many passes go out in all.
fn beside<N: TableName + Send + Sync, R: Threads + Sync>(
    rt: &R,
    blank: Blank,
    image: Image,
) -> (u32, bool, u32)
    requires table { blank.table ≡ N.table }
    requires key { blank.key ≡ N.key }
    requires image { image ≡ N.key.image }
{
    let (tables, mut keeper) = Tables::<N>::open(blank);
    let Ok(first) = keeper.admit(&tables) else {
        return (0, false, 0);
    };
    let Ok(second) = keeper.admit(&tables) else {
        return (0, false, 1);
    };
    let one = Reader {
        pass: first,
        sound: true,
    };
    let two = Reader {
        pass: second,
        sound: true,
    };
    let seen_by_one = Mark::new();
    let seen_by_two = Mark::new();
    let ((mut keeper, made), (one, two)) = join(
        rt,
        || -> (Keeper<N>, u32)
            requires { IsLike image keeper.entries }
        { refresh_around(&tables, keeper, &image, 50, (&seen_by_one, &seen_by_two)) },
        || -> (Reader<N>, Reader<N>)
            requires one { one.pass.parked ≡ false }
            requires two { two.pass.parked ≡ false }
        {
            join(
                rt,
                || -> Reader<N>
                    requires { one.pass.parked ≡ false }
                { load(&tables, one, 100, &seen_by_one) },
                || -> Reader<N>
                    requires { two.pass.parked ≡ false }
                { load(&tables, two, 100, &seen_by_two) },
            )
        },
    );
    let sound = one.sound && two.sound;
    let _ = keeper.release(&tables, one.pass);
    let mut out = 1;
    for _ in 0..20 {
        if keeper.admit(&tables).is_ok() && out < 20 {
            out += 1;
        }
    }
    (made, sound, out)
}

// An update with the next policy, and whether it is made.
fn widen<N: TableName>(
    tables: &Tables<N>,
    mut keeper: Keeper<N>,
    image: &Image,
) -> (Keeper<N>, bool)
    requires { IsLoad N.key.code_words (last_of keeper.entries) (entry_by 1 image.now 7) }
{
    let made = keeper.update(tables, image, 1, 7).is_ok();
    (keeper, made)
}

// Makes so many fetches of the second instruction: it is sound that it is there after some, and then in all.
fn fetch<N: TableName>(tables: &Tables<N>, mut reader: Reader<N>, turns: u32) -> Reader<N>
    requires { reader.pass.parked ≡ false }
    ensures { result.pass.parked ≡ false }
{
    let mut latest = 0;
    for _ in 0..turns {
        let found = tables.fetch(&mut reader.pass, 17);
        reader.sound = reader.sound && (found == 0x6f || found == latest);
        latest = found;
    }
    reader
}

// A guest fetches while an update adds an instruction. Whether it was added, whether all was sound, and what the guest
// fetches then.
fn added<N: TableName + Send + Sync, R: Threads + Sync>(
    rt: &R,
    blank: Blank,
    image: Image,
) -> (bool, bool, u32)
    requires table { blank.table ≡ N.table }
    requires key { blank.key ≡ N.key }
    requires closed { IsClosed N.key.code_words image }
    requires keeps { KeepsCode N.key.image image }
{
    let (tables, mut keeper) = Tables::<N>::open(blank);
    let Ok(pass) = keeper.admit(&tables) else {
        return (false, false, 0);
    };
    let reader = Reader { pass, sound: true };
    let ((_, made), mut reader) = join(
        rt,
        || -> (Keeper<N>, bool)
            requires { IsLoad N.key.code_words (last_of keeper.entries) (entry_by 1 image 7) }
        { widen(&tables, keeper, &image) },
        || -> Reader<N>
            requires { reader.pass.parked ≡ false }
            ensures { result.pass.parked ≡ false }
        { fetch(&tables, reader, 100_000) },
    );
    let found = tables.fetch(&mut reader.pass, 17);
    (made, reader.sound, found)
}

// A guest that never passes a quiescent point hinders the update at its bound, while another goes on: what each of
// three updates answers, what is in force then, and the number that the next pass has.
fn hindered<N: TableName>(
    blank: Blank,
    image: &Image,
) -> Option<([Result<u32, UpdateFault>; 3], Seen, u32)>
    requires table { blank.table ≡ N.table }
    requires key { blank.key ≡ N.key }
    requires image { image.now ≡ N.key.image }
{
    let (tables, mut keeper) = Tables::<N>::open(blank);
    let mut one = keeper.admit(&tables).ok()?;
    let mut two = keeper.admit(&tables).ok()?;
    let first = refresh_once(&tables, &mut keeper, image);
    tables.park(&mut one);
    let _ = tables.quiet(&mut one);
    let second = refresh_once(&tables, &mut keeper, image);
    tables.park(&mut two);
    let _ = tables.quiet(&mut two);
    let third = refresh_once(&tables, &mut keeper, image);
    keeper.note(&tables, &mut two);
    let seen = keeper.release(&tables, one);
    let again = keeper.admit(&tables).ok()?;
    Some(([first, second, third], seen, again.guest()))
}

/// Two guests load beside 100 refreshes, and find several epochs: each try finds IDs of one epoch each, in order.
pub fn two_guests_beside_refreshes<R: Threads + Sync>(
    rt: &R,
    alloc: Global,
) -> Result<bool, AllocError> {
    let layout = Layout::new(1024).unwrap();
    let image = jump_image(alloc, &layout, 0)?;
    let blank = Blank::new(alloc, layout, 16384, 0, &image)?;
    let found = beside::<Brand, R>(rt, blank, image);
    Ok(found == (100, true, 16))
}

/// A guest fetches beside an update that adds an instruction.
pub fn a_guest_beside_an_update<R: Threads + Sync>(
    rt: &R,
    alloc: Global,
) -> Result<bool, AllocError> {
    let layout = Layout::new(1024).unwrap();
    let image = jump_image(alloc, &layout, 0)?;
    let longer = jump_image(alloc, &layout, 0x6f)?;
    let blank = Blank::new(alloc, layout, 16384, 0, &image)?;
    let found = added::<Brand, R>(rt, blank, longer);
    Ok(found == (true, true, 0x6f))
}

/// A guest that never passes a quiescent point hinders an update, while another goes on.
pub fn a_guest_without_quiescent_points(alloc: Global) -> Result<bool, AllocError> {
    // Under three versions an update to epoch 2 asks each guest for a quiescent point since epoch 1.
    let layout = Layout::new(1024).unwrap();
    let image = jump_image(alloc, &layout, 0)?;
    let blank = Blank::new(alloc, layout, 3, 0, &image)?;
    let found = hindered::<Brand>(blank, &image);
    let spent = UpdateFault::VersionsSpent { guest: 1, quiet: 0 };
    let seen = Seen {
        epoch: 2,
        policy: 0,
    };
    Ok(found == Some(([Ok(1), Err(spent), Ok(2)], seen, 0)))
}
