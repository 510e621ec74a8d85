//! The outside: files and output in memory, and the real edge, in the folder where the program runs.

ghost use Rattle.std.specs.Prelude.{◌≡◌, IfSome, OnOk, IsErrOf};
ghost use Rattle.std.specs.Io.KnownBytes.{Appends};
ghost use Rattle.cfi_io.specs.Count.{Rose};
ghost use Rattle.cfi_io.specs.Told.{WhereTold};
ghost use Rattle.cfi_calls.specs.declared.outside.ShowFault.TheVariants.{Read, Write};
ghost use Rattle.cfi_io.specs.declared.fault.ShelfFault.TheVariants.{Failed as ShelfFailed, Absent};
ghost use Rattle.cfi_io.specs.declared.fault.SinkFault.TheVariants.{Failed as SinkFailed};

use cfi_io::{
    DirShelf, Gate, MemShelf, MemSink, QuietGate, Shelf, ShelfFault, Sink, SinkFault, StdSink,
};
use cfi_word::limits::MAX_FILE_BYTES;
use std::alloc::{AllocError, Global};
use std::{fs, io};

#[derive(Clone, Copy, Debug, PartialEq, Eq)]
enum ShowFault {
    Read(ShelfFault),
    Write(SinkFault),
}

// A caller over any outside: writes a file to the sink.
fn show<F: Shelf, S: Sink, G: Gate>(
    name: &str,
    shelf: &mut F,
    sink: &mut S,
    gate: &G,
) -> Result<(), ShowFault>
    ensures ok { OnOk result (WhereTold (F.seen shelf.old).files (λ files.
        IfSome (files name.now) (λ bytes.
        Appends (S.seen sink.old).written (S.seen sink.new).written bytes))) }
    ensures unread { IsErrOf result (Read ShelfFailed) →
        Rose (F.seen shelf.old).faults (F.seen shelf.new).faults }
    ensures absent { IsErrOf result (Read Absent) →
        WhereTold (F.seen shelf.old).files (λ files. files name.now ≡ None) }
    ensures unwritten { IsErrOf result (Write SinkFailed) →
        Rose (S.seen sink.old).faults (S.seen sink.new).faults }
{
    gate.line(0);
    let bytes = shelf.read(name).map_err(ShowFault::Read)?;
    gate.pass(0, 2);
    sink.write(&bytes).map_err(ShowFault::Write)
}

fn text(alloc: Global, word: &str) -> Result<String, AllocError> {
    String::from_str(alloc, word)
}

// Whether a file that is written is there, and one that is not is absent.
fn is_kept(shelf: &mut MemShelf) -> bool {
    shelf.write("b.s", b"j .\n") == Ok(())
        && shelf.file("b.s") == Some(b"j .\n".as_slice())
        && shelf.read("c.s") == Err(ShelfFault::Absent)
}

/// Of two pairs with one name the later counts.
pub fn a_later_pair_counts(alloc: Global) -> Result<bool, AllocError> {
    let old = (text(alloc, "a.s")?, b"nop\n".to_vec(alloc)?);
    let new = (text(alloc, "a.s")?, b"ret\n".to_vec(alloc)?);
    let mut shelf = MemShelf::new(alloc, vec![in alloc; old, new]?, Vec::new(alloc));
    let mut sink = MemSink::new(alloc, Vec::new(alloc));
    let shown = show("a.s", &mut shelf, &mut sink, &QuietGate::new()) == Ok(());
    Ok(shown && sink.written() == b"ret\n".as_slice() && is_kept(&mut shelf))
}

// Whether a file has these bytes.
fn has(shelf: &mut DirShelf, name: &str, bytes: &[u8]) -> bool {
    match shelf.read(name) {
        Ok(found) => found.as_slice() == bytes,
        Err(_) => false,
    }
}

// A file that is written is read, and absent once it is removed.
fn a_small_file(rt: HostRuntime, shelf: &mut DirShelf) -> io::Result<bool> {
    let is_there = shelf.write("small.tmp", b"nop\n") == Ok(())
        && has(shelf, "small.tmp", b"nop\n");
    fs::remove_file(&rt, "small.tmp")?;
    Ok(is_there && shelf.read("small.tmp") == Err(ShelfFault::Absent))
}

// A file of the greatest length is read, and one that is longer is not.
fn a_large_file(rt: HostRuntime, shelf: &mut DirShelf) -> io::Result<bool> {
    let mut bytes = vec![in rt.alloc(); 7u8; MAX_FILE_BYTES + 1]?;
    let is_long = shelf.write("large.tmp", &bytes) == Ok(())
        && shelf.read("large.tmp") == Err(ShelfFault::TooLong);
    bytes.truncate(MAX_FILE_BYTES);
    let is_whole = shelf.write("large.tmp", &bytes) == Ok(()) && has(shelf, "large.tmp", &bytes);
    fs::remove_file(&rt, "large.tmp")?;
    Ok(is_long && is_whole)
}

/// Files of the current folder are written and read.
pub fn files_of_the_current_folder(rt: HostRuntime) -> io::Result<bool> {
    let mut shelf = DirShelf::new(rt, rt.alloc());
    Ok(a_small_file(rt, &mut shelf)? && a_large_file(rt, &mut shelf)?)
}

// Removes these files of the current folder.
fn remove_all(rt: HostRuntime, names: &[&str]) -> io::Result<()> {
    for name in names {
        fs::remove_file(&rt, *name)?;
    }
    Ok(())
}

/// A save leaves the files whose names it could have taken.
pub fn a_save_leaves_other_files(rt: HostRuntime) -> io::Result<bool> {
    let others = ["cfi-part-0", "cfi-part-1", "kept.tmp.cfi-part"];
    let mut shelf = DirShelf::new(rt, rt.alloc());
    for name in others {
        fs::write(&rt, name, b"mine\n")?;
    }
    let is_saved = shelf.write("kept.tmp", b"nop\n") == Ok(())
        && shelf.write("kept.tmp", b"ret\n") == Ok(())
        && has(&mut shelf, "kept.tmp", b"ret\n");
    let is_clean = shelf.read("cfi-part-2") == Err(ShelfFault::Absent);
    let mut are_left = true;
    for name in others {
        are_left = are_left && has(&mut shelf, name, b"mine\n");
    }
    remove_all(rt, &others)?;
    fs::remove_file(&rt, "kept.tmp")?;
    Ok(is_saved && is_clean && are_left)
}

/// A file of the longest name is saved, and replaced; at a longer name a save fails, and the system's reason is told.
pub fn names_of_the_greatest_length(rt: HostRuntime) -> io::Result<bool> {
    let mut shelf = DirShelf::new(rt, rt.alloc());
    let mut name = "n".repeat(rt.alloc(), 255)?;
    let is_saved = shelf.write(&name, b"nop\n") == Ok(()) && shelf.write(&name, b"ret\n") == Ok(());
    let is_there = has(&mut shelf, &name, b"ret\n");
    fs::remove_file(&rt, &name)?;
    name.push('n')?;
    let has_failed = shelf.write(&name, b"nop\n") == Err(ShelfFault::Failed);
    Ok(is_saved && is_there && has_failed && shelf.error().is_some())
}

/// A line is written to standard output.
pub fn standard_output(rt: HostRuntime) -> bool {
    let mut sink = StdSink::new(rt);
    sink.write(b"written\n") == Ok(())
}
