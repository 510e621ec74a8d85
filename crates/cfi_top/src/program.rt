ghost use Rattle.std.specs.Prelude.{◌≡◌, ◌≤◌, IfOk, IfSome, IsSomeAnd, ◌⊎◌, ℕ, List, length, All, None};
ghost use Rattle.cfi_io.specs.Count.{Rose};
ghost use Rattle.cfi_io.specs.Seen.{ShelfView};
ghost use Rattle.cfi_io.specs.Told.{WhereKeptTold};
ghost use Rattle.cfi_request.specs.declared.command.Command.TheVariants as commands;
ghost use Rattle.cfi_request.specs.declared.output.TheConstants.{DONE, USAGE, READ_FAULT, NO_FILE, WRITE_FAULT, REFUSED, MEMORY};
ghost use Rattle.cfi_request.specs.Words.{texts};
ghost use Rattle.cfi_request.specs.Command.{HasInputs, IsCommand, IsCommandLine, inputs_of, more_of};
ghost use Rattle.cfi_request.specs.Outside.{IsLater};
ghost use Rattle.cfi_request.specs.Reading.{IsShort};
ghost use Rattle.cfi_top.specs.Promises.{GuestsAskInForce, GuestsKeepPolicies, GuestsEnterUnits, GuestsStoreInside};
ghost use Rattle.cfi_top.specs.Outcome.{IsAnswer};
ghost use Rattle.cfi_top.specs.Answer.{kept_at};
ghost use Rattle.cfi_top.specs.Ready.{IsReady, IsServed};
ghost use Rattle.cfi_top.specs.Running.{RunsGuests};
ghost use Rattle.cfi_top.specs.inner.Working.{ComesTo};
ghost use Rattle.cfi_top.specs.Top.{Ends, HasRun, HasGenerated, HasSimulated, HasListed, HasAssembled, HasInstrumented, HasStubbed, HasLinked, HasVerified, HasGraphed, HasJudged, IsRefused, IsStopped, IsSavedBy, IsUnsaved, Saves, Runs, IsValid, IsSteady};

use crate::answer::{Answer, output_of};
use crate::ready::run_ready;
use crate::work::{Outcome, Ready, outcome_of};
use cfi_engine::Concluded;
use cfi_io::{Gate, Shelf, Sink};
use cfi_request::{DONE, MEMORY, command_of, deliver};
use std::alloc::{AllocError, Global};
use std::sync::Wait;
use std::thread::Threads;

/// How the program ended.
#[derive(Drop)]
pub struct Ended {
    /// The exit status, 0 to 6.
    pub status: u8,
    /// What the run has come to, exactly where the command is `run` or `gen` and the status is 0.
    pub run: Option<Concluded>,
}

/// What the words come to where nobody is waited for.
#[derive(Drop)]
pub enum Served {
    /// The program has ended so.
    Ended(Ended),
    /// A run is to be made.
    Run(Ready),
}

// What the words come to.
fn answer_of<F: Shelf>(
    alloc: Global,
    words: &[String],
    shelf: &mut F,
) -> Result<Outcome, AllocError>
    ensures answer { IfOk result (ComesTo
        (IsAnswer (texts words.now) (F.seen shelf.old) (F.seen shelf.new))
        (IsReady (texts words.now) (F.seen shelf.old))) }
    ensures same { (F.seen shelf.new).files ≡ (F.seen shelf.old).files }
    ensures faults { (F.seen shelf.old).faults ≤ (F.seen shelf.new).faults }
    ensures misses { (F.seen shelf.old).misses ≤ (F.seen shelf.new).misses }
{
    match command_of(alloc, words)? {
        Some(command) => outcome_of(alloc, command, shelf),
        None => Ok(Outcome::Answer(Answer::Usage)),
    }
}

// What a run has come to, where its report was written.
fn kept(status: u8, run: Option<Concluded>) -> Option<Concluded>
    ensures { result ≡ kept_at status run }
{
    if status == DONE { run } else { None }
}

// The program ends for want of memory.
fn starved() -> Ended
    ensures { result ≡ record { status = MEMORY; run = None } }
{
    Ended {
        status: MEMORY,
        run: None,
    }
}

// Delivers an answer, and says how the program ends.
fn told<F: Shelf, S: Sink>(alloc: Global, answer: Answer, shelf: &mut F, sink: &mut S) -> Ended
    ensures ends { (words : List (List ℕ)) → (before : ShelfView) →
        IsLater before (F.seen shelf.old) →
        IsAnswer words before (F.seen shelf.old) answer → Ends words before
        (F.seen shelf.new)
        (S.seen sink.old)
        (S.seen sink.new) result.status result.run }
{
    let Ok((output, run)) = output_of(alloc, answer) else {
        return starved();
    };
    let status = deliver(shelf, sink, &output);
    Ended {
        status,
        run: kept(status, run),
    }
}

/// Does what the words say, but for a run: of that it reads the files, and hands it out.
///
/// It waits for nobody: all commands but `run` and `gen` are done here.
pub fn serve<F: Shelf, S: Sink>(
    alloc: Global,
    words: &[String],
    shelf: &mut F,
    sink: &mut S,
) -> Served
    ensures served { IsServed (texts words.now)
        (F.seen shelf.old)
        (F.seen shelf.new)
        (S.seen sink.old)
        (S.seen sink.new) result }
{
    match answer_of(alloc, words, shelf) {
        Ok(Outcome::Answer(answer)) => Served::Ended(told(alloc, answer, shelf, sink)),
        Ok(Outcome::Run(ready)) => Served::Run(ready),
        Err(_) => Served::Ended(starved()),
    }
}

// Runs what is ready, delivers what that comes to, and says how the program ends.
fn finish<F: Shelf, S: Sink, G: Gate, R: Threads + Wait + Sync>(
    rt: &R,
    alloc: Global,
    ready: Ready,
    shelf: &mut F,
    sink: &mut S,
    gate: &G,
) -> Ended
    requires runs { RunsGuests ready.command }
    requires number { HasInputs ready.command }
    requires count { length ready.files ≡ length (inputs_of ready.command) }
    requires short { All IsShort ready.files }
    requires named { length ready.more ≡ length (more_of ready.command ready.files) }
    requires small { All IsShort ready.more }
    ensures ends { (words : List (List ℕ)) → (before : ShelfView) →
        IsLater before (F.seen shelf.old) →
        IsReady words before ready → Ends words before
        (F.seen shelf.new)
        (S.seen sink.old)
        (S.seen sink.new) result.status result.run }
{
    match run_ready(rt, alloc, ready, gate) {
        Ok(answer) => told(alloc, answer, shelf, sink),
        Err(_) => starved(),
    }
}

// Answers the words, and says how the program ends.
fn run_words<F: Shelf, S: Sink, G: Gate, R: Threads + Wait + Sync>(
    rt: &R,
    alloc: Global,
    words: &[String],
    shelf: &mut F,
    sink: &mut S,
    gate: &G,
) -> Ended
    ensures ends { Ends (texts words.now)
        (F.seen shelf.old)
        (F.seen shelf.new)
        (S.seen sink.old)
        (S.seen sink.new) result.status result.run }
{
    match serve(alloc, words, shelf, sink) {
        Served::Ended(ended) => ended,
        Served::Run(ready) => finish(rt, alloc, ready, shelf, sink, gate),
    }
}

/// Runs the program: its words after its own name, over a shelf, a sink and a gate.
///
/// `asm IN OUT` assembles a source and saves the object. `list IN` prints the listing of an object's text. `instrument
/// IN OUT` instruments a module and saves it. `stub IN OUT` gives a module stubs for the functions that it calls and
/// that may come later, and saves it. `link OUT IN..` links 1 to 64 modules and saves what they make. `verify PLAN`
/// verifies the modules of a plan and prints a line for each; `graph PLAN` does so and prints the groups of their
/// policy. `sim PLAN SCHEDULE` makes the events of a schedule, one by one, and prints what they come to. `run FILE`
/// runs a plan, or a bare file, whose guests run on threads of their own beside the script, and prints the report. `gen
/// SEED COUNT` runs 2 to 32 modules that are drawn of a seed, and prints the summary; it reads no file. `judge FILE
/// REPORT` says whether a report is a valid one of a plan, or of a bare file. It waits for a run alone: all else is done
/// by `serve`. Status 0 where the command's bytes were written whole, 1 where the words are
/// no command, 2 where the shelf failed, 3 where a file is not there or too long, 4 where the sink failed, or the shelf
/// where a file was saved, 5 where a file was refused, 6 where no memory was left.
pub fn top<F: Shelf, S: Sink, G: Gate, R: Threads + Wait + Sync>(
    rt: &R,
    alloc: Global,
    words: &[String],
    shelf: &mut F,
    sink: &mut S,
    gate: &G,
) -> Ended
    ensures ends { Ends (texts words.now)
        (F.seen shelf.old)
        (F.seen shelf.new)
        (S.seen sink.old)
        (S.seen sink.new) result.status result.run }

    // The headline: what was run is what the file says, its report is valid, and it is what is printed.
    ensures ran { (input : List ℕ) → IsCommand (texts words.now) (commands.Run input) →
        result.status ≡ DONE → IsSomeAnd result.run (HasRun input
        (F.seen shelf.old)
        (S.seen sink.old)
        (S.seen sink.new)) }

    // What was generated is what the seed and the number of modules make, and its summary is what is printed.
    ensures generated { (seed count : ℕ) →
        IsCommand (texts words.now) (commands.Gen seed count) →
        result.status ≡ DONE → IsSomeAnd result.run (HasGenerated seed count
        (S.seen sink.old)
        (S.seen sink.new)) }
    ensures run { IfSome result.run (λ _. (result.status ≡ DONE) × Runs (texts words.now)) }

    // Promise by promise, of each guest that was run: unit by unit it does what the policy machine does, each check goes
    // where the policy that it asks allows and halts only where that forbids; it never enters a unit's middle; and it
    // never stores outside its own data.
    ensures policies { IfSome result.run GuestsKeepPolicies }
    ensures enters { IfSome result.run GuestsEnterUnits }
    ensures stores { IfSome result.run GuestsStoreInside }

    // What each guest loads are the words of the tables at the moments of its loads; and the policy that a check asks is
    // in force throughout its window, from the moment of its last load of the slot's word to that of the target's.
    ensures in_force { IfSome result.run GuestsAskInForce }

    ensures simulated { (plan schedule : List ℕ) →
        IsCommand (texts words.now) (commands.Sim plan schedule) →
        result.status ≡ DONE → HasSimulated plan schedule
        (F.seen shelf.old)
        (S.seen sink.old)
        (S.seen sink.new) }
    ensures listed { (input : List ℕ) → IsCommand (texts words.now) (commands.List input) →
        result.status ≡ DONE → HasListed input
        (F.seen shelf.old)
        (S.seen sink.old)
        (S.seen sink.new) }

    ensures assembled { (input output : List ℕ) →
        IsCommand (texts words.now) (commands.Asm input output) →
        result.status ≡ DONE → HasAssembled input output
        (F.seen shelf.old)
        (F.seen shelf.new)
        (S.seen sink.old)
        (S.seen sink.new) }

    ensures instrumented { (input output : List ℕ) →
        IsCommand (texts words.now) (commands.Instrument input output) →
        result.status ≡ DONE → HasInstrumented input output
        (F.seen shelf.old)
        (F.seen shelf.new)
        (S.seen sink.old)
        (S.seen sink.new) }

    ensures stubbed { (input output : List ℕ) →
        IsCommand (texts words.now) (commands.Stub input output) →
        result.status ≡ DONE → HasStubbed input output
        (F.seen shelf.old)
        (F.seen shelf.new)
        (S.seen sink.old)
        (S.seen sink.new) }

    ensures linked { (output : List ℕ) → (inputs : List (List ℕ)) →
        IsCommand (texts words.now) (commands.Link output inputs) →
        result.status ≡ DONE → HasLinked output inputs
        (F.seen shelf.old)
        (F.seen shelf.new)
        (S.seen sink.old)
        (S.seen sink.new) }

    ensures verified { (input : List ℕ) → IsCommand (texts words.now) (commands.Verify input) →
        result.status ≡ DONE → HasVerified input
        (F.seen shelf.old)
        (S.seen sink.old)
        (S.seen sink.new) }

    ensures graphed { (input : List ℕ) → IsCommand (texts words.now) (commands.Graph input) →
        result.status ≡ DONE → HasGraphed input
        (F.seen shelf.old)
        (S.seen sink.old)
        (S.seen sink.new) }

    ensures judged { (input report : List ℕ) →
        IsCommand (texts words.now) (commands.Judge input report) →
        result.status ≡ DONE → HasJudged input report
        (F.seen shelf.old)
        (S.seen sink.old)
        (S.seen sink.new) }

    // When each status comes.
    ensures done { result.status ≡ DONE → IsCommandLine (texts words.now) }
    ensures usage { result.status ≡ USAGE → ¬ IsCommandLine (texts words.now) }
    ensures unfit { ¬ IsCommandLine (texts words.now) →
        (result.status ≡ USAGE) ⊎ (result.status ≡ WRITE_FAULT) ⊎ (result.status ≡ MEMORY) }
    ensures read_fault { result.status ≡ READ_FAULT →
        Rose (F.seen shelf.old).faults (F.seen shelf.new).faults }
    ensures missed { result.status ≡ NO_FILE
        → Rose (F.seen shelf.old).misses (F.seen shelf.new).misses }
    ensures unread { (result.status ≡ READ_FAULT) ⊎ (result.status ≡ NO_FILE) →
        IsStopped (texts words.now)
        (F.seen shelf.old)
        (F.seen shelf.new)
        (S.seen sink.old)
        (S.seen sink.new) result.status }
    ensures write_fault { result.status ≡ WRITE_FAULT →
        Rose (S.seen sink.old).faults (S.seen sink.new).faults
        ⊎ IsUnsaved (texts words.now) (F.seen shelf.old) (F.seen shelf.new) }
    ensures refused { result.status ≡ REFUSED → IsRefused (texts words.now)
        (F.seen shelf.old)
        (S.seen sink.old)
        (S.seen sink.new) }
    ensures within { result.status ≤ MEMORY }

    // Valid input gives 0 or 6, where no count rises.
    ensures valid { IfSome (F.seen shelf.old).files (λ told. IsValid (texts words.now) told →
        IsSteady (F.seen shelf.old)
        (F.seen shelf.new)
        (S.seen sink.old)
        (S.seen sink.new) →
        (result.status ≡ DONE) ⊎ (result.status ≡ MEMORY)) }

    // All files stay but the one that the command saves, and that one too but at 0, and at 4 where the shelf failed.
    ensures elsewhere { WhereKeptTold (F.seen shelf.old).files (F.seen shelf.new).files
        (λ told told'. (name : List ℕ) → ¬ IsSavedBy (texts words.now) name →
        told' name ≡ told name) }
    ensures same { ((F.seen shelf.new).files ≡ (F.seen shelf.old).files)
        ⊎ (Saves (texts words.now) × ((result.status ≡ DONE) ⊎ ((result.status ≡ WRITE_FAULT) ×
        Rose (F.seen shelf.old).faults (F.seen shelf.new).faults))) }
{
    run_words(rt, alloc, words, shelf, sink, gate)
}
