//! Where the next module goes behind some that are placed, which need not verify, and of which some are gone.

ghost use Rattle.std.specs.Prelude.{◌≡◌, ◌↔◌, ◌<◌, ◌∷◌, ◌++◌, ◌^◌, ℕ, Bool, [], List, All, IfOk, IsTrue, OnOk, length};
ghost use Rattle.cfi_judge.specs.inner.Next.{FitsAt, IsHere, IsNext, IsPast, StandsThere, Takes, TellGone, exports_left, is_gone, line_at, room_of};
ghost use Rattle.cfi_judge.specs.inner.Told.{origin_by};
ghost use Rattle.cfi_ledger.specs.Plans.{CanStart};
ghost use Rattle.cfi_ledger.specs.Roster.{loaded_in_roster};
ghost use Rattle.cfi_modules.specs.Series.{CanBeTaken};
ghost use Rattle.cfi_place.specs.Names.{find_in, first_in};
ghost use Rattle.cfi_place.specs.Placed.{IsRoom};
ghost use Rattle.cfi_valid.specs.Loaded.{LoadedModule, planned_name};
ghost use Rattle.cfi_word.specs.Table.{IsSize};

use crate::entries::Update;
use cfi_aux::{Module, Placed, copied_name};
use cfi_ledger::Roster;
use cfi_place::{PlaceFault, Room, Symbols, place};
use cfi_plan::{ModuleLine, Plan};
use cfi_values::Items;
use cfi_word::map::{DATA_ALIGNMENT, DATA_START, FIRST_BASE};
use elf_read::Name;
use std::alloc::{AllocError, Global};

/// A module that stands, by its number, and what it exports.
#[derive(Drop)]
pub(crate) struct Stood {
    /// Its number.
    pub number: u32,
    /// The names that it exports, with their addresses.
    pub exports: Items<(Name, u32)>,
}

/// Where the next module goes, and what it may ask for.
#[derive(Drop)]
pub(crate) struct Next {
    /// The word at which its text begins.
    pub base: u32,
    /// The slot of its first check.
    pub slot: usize,
    /// The address at which its data begins.
    pub data_base: u32,
    /// How many words the code has.
    pub code_words: u32,
    /// Those before it, in order.
    pub stood: Vec<Stood>,
    /// For each module of the plan, by its number, whether it is gone.
    pub gone: Vec<bool>,
    /// The names that those before it export that are not gone.
    pub names: Symbols,
    /// Where memory comes from.
    pub alloc: Global,
}

// Adds the names that a module exports.
fn add_exports(names: &mut Symbols, exports: &[(Name, u32)]) -> Result<(), AllocError>
    ensures { (before : List (List ℕ × ℕ)) →
        ((name : List ℕ) → find_in names.old name ≡ first_in before name) →
        OnOk result ((name : List ℕ) →
        find_in names.new name ≡ first_in (before ++ exports.now) name) }
{
    for (name, address) in exports {
        names.add(name.as_str(), *address)?;
    }
    Ok(())
}

// A copy of what a module exports.
fn copied_exports(alloc: Global, exports: &[(Name, u32)]) -> Result<Items<(Name, u32)>, AllocError>
    ensures { IfOk result (λ made. made ≡ exports.now) }
{
    let mut made = Vec::with_capacity(alloc, exports.len())?;
    for export in exports {
        made.push((copied_name(alloc, &export.0)?, export.1))?;
    }
    Ok(Items::from_vec(made))
}

// The module of a number is gone.
fn is_gone(gone: &[bool], number: u32) -> bool
    ensures { result ≡ is_gone gone.now number }
{
    match gone.get(number as usize) {
        Some(flag) => *flag,
        None => false,
    }
}

// Adds the names that a module exports, where it is not gone.
fn add_left(names: &mut Symbols, gone: &[bool], stood: &Stood) -> Result<(), AllocError>
    ensures { (before : List (List ℕ × ℕ)) →
        ((name : List ℕ) → find_in names.old name ≡ first_in before name) →
        OnOk result ((name : List ℕ) → find_in names.new name
        ≡ first_in (before ++ exports_left gone.now (stood.now ∷ [])) name) }
{
    if is_gone(gone, stood.number) {
        return Ok(());
    }
    add_exports(names, stood.exports.as_slice())
}

// The names that those export that are not gone.
fn names_left(alloc: Global, gone: &[bool], stood: &[Stood]) -> Result<Symbols, AllocError>
    ensures { IfOk result (λ names. (name : List ℕ) →
        find_in names name ≡ first_in (exports_left gone.now stood.now) name) }
{
    let mut names = Symbols::new(alloc);
    for one in stood {
        add_left(&mut names, gone, one)?;
    }
    Ok(names)
}

// The line has the name of a module of the plan.
fn is_named(plan: &Plan, line: &ModuleLine, number: u32) -> bool
    requires { number < length plan.now.modules }
    ensures { IsTrue result ↔ (line.now.name ≡ planned_name plan.now.modules number) }
{
    line.name.as_str() == plan.modules.as_slice()[number as usize].name.as_str()
}

impl Next {
    // The line says that a module stands here.
    fn is_here(&self, line: &ModuleLine) -> bool
        ensures here { IsTrue result ↔ IsHere self.now line.now }
        ensures few { IsTrue result → self.now.slot < 2 ^ 32 }
    {
        line.base == self.base
            && line.slot as usize == self.slot
            && line.data_base == self.data_base
    }

    // The first place, of a plan with so many modules.
    fn first(alloc: Global, code_words: u32, count: usize) -> Result<Next, AllocError>
        requires { IsSize code_words }
        ensures { IfOk result (IsNext code_words count [] []) }
    {
        let mut gone = Vec::new(alloc);
        gone.resize(count, false)?;
        Ok(Next {
            base: FIRST_BASE,
            slot: 0,
            data_base: DATA_START,
            code_words,
            stood: Vec::new(alloc),
            gone,
            names: Symbols::new(alloc),
            alloc,
        })
    }

    // The place behind a module of this number that stands here.
    fn pass(self, number: u32, placed: &Placed) -> Result<Next, AllocError>
        requires { FitsAt self placed.now }
        ensures { IfOk result (IsPast self number placed.now) }
    {
        let Next {
            base,
            slot,
            data_base,
            code_words,
            mut stood,
            gone,
            mut names,
            alloc,
        } = self;
        let one = Stood {
            number,
            exports: copied_exports(alloc, placed.exports.as_slice())?,
        };
        add_left(&mut names, &gone, &one)?;
        stood.push(one)?;
        let end = data_base + placed.static_data.len() as u32;
        Ok(Next {
            base: base + placed.words.len() as u32,
            slot: slot + placed.branches.as_slice().len(),
            data_base: end.next_multiple_of(DATA_ALIGNMENT as u32),
            code_words,
            stood,
            gone,
            names,
            alloc,
        })
    }

    /// The place behind the start modules of a plan with so many modules.
    pub(crate) fn behind(
        alloc: Global,
        code_words: u32,
        count: usize,
        starts: &Roster,
    ) -> Result<Next, AllocError>
        requires words { starts.now.code_words ≡ code_words }
        requires lined { length starts.now.lines ≡ length starts.now.placed }
        requires known { All (λ (l : LoadedModule). l.number < count)
            (loaded_in_roster starts.now) }
        ensures { IfOk result (IsNext code_words count (loaded_in_roster starts.now) []) }
    {
        let lines = starts.lines();
        let placed = starts.modules();
        let mut next = Next::first(alloc, code_words, count)?;
        for at in 0..placed.len() {
            next = next.pass(lines[at].number, &placed[at])?;
        }
        Ok(next)
    }

    // The same place, where the names are made anew.
    fn renamed(self) -> Result<Next, AllocError>
        ensures names { IfOk result (λ new. (name : List ℕ) → find_in new.names name
            ≡ first_in (exports_left self.gone.items self.stood.items) name) }
        ensures same { IfOk result (λ new. new ≡ record self { names = new.names }) }
    {
        let names = names_left(self.alloc, &self.gone, &self.stood)?;
        Ok(Next { names, ..self })
    }

    /// The same place, with the module of a number gone. The names are made anew where it was not before.
    pub(crate) fn leave(mut self, number: u32) -> Result<Next, AllocError>
        ensures { (code_words count : ℕ) (before : List LoadedModule) (gone : List ℕ) →
            IsNext code_words count before gone self →
            IfOk result (IsNext code_words count before (gone ++ number ∷ [])) }
    {
        if number as usize >= self.gone.len() {
            return Ok(self);
        }
        if self.gone[number as usize] {
            return Ok(self);
        }
        self.gone[number as usize] = true;
        self.renamed()
    }

    // The room.
    fn room(&self) -> Room
        ensures { result ≡ room_of self.now }
    {
        Room {
            base: self.base,
            slot_base: 0,
            data_base: self.data_base,
            code_words: self.code_words,
        }
    }

    // The line says that the module that is told stands here.
    fn has_line(&self, plan: &Plan, line: &ModuleLine, load: Update) -> bool
        requires { load.number < length plan.now.modules }
        ensures same { IsTrue result ↔ (line.now ≡ line_at plan.now self.now (origin_by load)) }
        ensures few { IsTrue result → self.now.slot < 2 ^ 32 }
    {
        if line.number != load.number {
            return false;
        }
        if line.policy != load.policy {
            return false;
        }
        if !self.is_here(line) {
            return false;
        }
        is_named(plan, line, load.number)
    }

    // What placing makes of a module here, if it is placed.
    fn placed_here(&self, unplaced: &Module) -> Result<Option<Placed>, AllocError>
        requires taken { CanBeTaken unplaced.now }
        requires room { IsRoom (room_of self.now) }
        ensures { IfOk result (StandsThere self.now unplaced.now) }
    {
        match place(self.alloc, unplaced, &self.room(), &self.names) {
            Ok(placed) => Ok(Some(placed)),
            Err(PlaceFault::Memory) => Err(AllocError),
            Err(_) => Ok(None),
        }
    }

    /// The place behind the module that is told, where it stands here and the line says so.
    pub(crate) fn take(
        self,
        plan: &Plan,
        modules: &[Module],
        line: &ModuleLine,
        load: Update,
    ) -> Result<Option<Next>, AllocError>
        requires can { CanStart plan.now modules.now }
        requires next { (before : List LoadedModule) × (gone : List ℕ)
            × IsNext plan.now.code_words (length modules.now) before gone self }
        ensures { (before : List LoadedModule) (gone : List ℕ) →
            IsNext plan.now.code_words (length modules.now) before gone self →
            IfOk result (Takes plan.now modules.now before gone line.now (origin_by load)) }
    {
        if load.number as usize >= modules.len() {
            return Ok(None);
        }
        if !self.has_line(plan, line, load) {
            return Ok(None);
        }
        match self.placed_here(&modules[load.number as usize])? {
            Some(placed) => Ok(Some(self.pass(load.number, &placed)?)),
            None => Ok(None),
        }
    }
}
