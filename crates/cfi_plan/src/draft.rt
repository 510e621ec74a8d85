ghost use Rattle.std.specs.Prelude.{◌≡◌, nat_lt, length, if◌then◌else◌, is_none, unwrap_or, Ok, Err};
ghost use Rattle.cfi_plan.specs.declared.fault.PlanFault.TheVariants.{Syntax, Limit};
ghost use Rattle.cfi_plan.specs.Draft.{PlanSoFar as Said, empty, taken, module_of, one_if, plan_of, Fails};
ghost use Rattle.cfi_values.specs.Due.{Leaves};

use crate::fault::PlanFault;
use crate::index::{give_number, number_of};
use crate::line::Line;
use crate::plan::{Plan, PlanModule, ScriptLine};
use cfi_values::{Items, Text};
use cfi_word::limits::{
    FUEL, GUESTS, MAX_CODE_WORDS, MAX_EPOCH, MAX_FUEL, MAX_MODULES, MAX_REFRESHES, MAX_SCRIPT,
    MAX_STARTS, MAX_VERSIONS, MIN_CODE_WORDS, MIN_VERSIONS,
};
use std::alloc::Global;
use std::collections::BTreeMap;
use std::marker::Model;

/// A plan as far as its lines have been read.
#[derive(Drop)]
pub struct Draft {
    code: Option<u32>,
    versions: Option<u32>,
    first: Option<u32>,
    fuel: Option<u32>,
    modules: Vec<PlanModule>,
    guests: Vec<Text>,
    script: Vec<ScriptLine>,
    // The number of each module by its name, and the two sums that are limited.
    names: BTreeMap<String, u32>,
    starts: u32,
    refreshes: u32,
}

impl Model for Draft {
    ghost use Rattle.cfi_plan.specs.Draft.{PlanSoFar as Said};

    ghost Value = { Said };

    ghost use Rattle.cfi_plan.specs.Kept.{view_of, IsKept};

    ghost view = { view_of };

    ghost invariant = { IsKept };
}

impl Draft {
    /// The draft before any line.
    pub fn new(alloc: Global) -> Draft
        ensures { result ≡ empty }
    {
        Draft {
            code: None,
            versions: None,
            first: None,
            fuel: None,
            modules: Vec::new(alloc),
            guests: Vec::new(alloc),
            script: Vec::new(alloc),
            names: BTreeMap::new(alloc),
            starts: 0,
            refreshes: 0,
        }
    }

    /// Adds the line of this number.
    pub fn take_line(&mut self, alloc: Global, number: u32, line: Line) -> Result<(), PlanFault>
        ensures { Leaves Fails result self.new (taken number self.old line) }
    {
        match line {
            Line::Blank => Ok(()),
            Line::Code(count) => self.set_code(number, count),
            Line::Versions(count) => self.set_versions(number, count),
            Line::Epoch(count) => self.set_first(number, count),
            Line::Fuel(count) => self.set_fuel(number, count),
            Line::Module(one) => self.add_module(alloc, number, one),
            Line::Guest(entry) => self.add_guest(number, entry),
            Line::Load(name) => self.add_load(number, name),
            Line::Retire(name) => self.add_retire(number, name),
            Line::Refresh(count) => self.add_refreshes(number, count),
        }
    }

    fn set_code(&mut self, number: u32, count: u64) -> Result<(), PlanFault>
        ensures { Leaves Fails result self.new (taken number self.old (Line.Code count)) }
    {
        if self.code.is_some() {
            return Err(PlanFault::Syntax(number));
        }
        if count % u64::from(MIN_CODE_WORDS) != 0
            || count < u64::from(MIN_CODE_WORDS)
            || count > u64::from(MAX_CODE_WORDS)
        {
            return Err(PlanFault::Limit(number));
        }
        self.code = Some(count as u32);
        Ok(())
    }

    fn set_versions(&mut self, number: u32, count: u64) -> Result<(), PlanFault>
        ensures { Leaves Fails result self.new (taken number self.old (Line.Versions count)) }
    {
        if self.versions.is_some() {
            return Err(PlanFault::Syntax(number));
        }
        if count < u64::from(MIN_VERSIONS) || count > u64::from(MAX_VERSIONS) {
            return Err(PlanFault::Limit(number));
        }
        self.versions = Some(count as u32);
        Ok(())
    }

    fn set_first(&mut self, number: u32, count: u64) -> Result<(), PlanFault>
        ensures { Leaves Fails result self.new (taken number self.old (Line.Epoch count)) }
    {
        if self.first.is_some() {
            return Err(PlanFault::Syntax(number));
        }
        if count > u64::from(MAX_EPOCH) {
            return Err(PlanFault::Limit(number));
        }
        self.first = Some(count as u32);
        Ok(())
    }

    fn set_fuel(&mut self, number: u32, count: u64) -> Result<(), PlanFault>
        ensures { Leaves Fails result self.new (taken number self.old (Line.Fuel count)) }
    {
        if self.fuel.is_some() {
            return Err(PlanFault::Syntax(number));
        }
        if count < 1 || count > u64::from(MAX_FUEL) {
            return Err(PlanFault::Limit(number));
        }
        self.fuel = Some(count as u32);
        Ok(())
    }

    fn add_module(&mut self, alloc: Global, number: u32, one: PlanModule) -> Result<(), PlanFault>
        ensures { Leaves Fails result self.new (taken number self.old (Line.Module one)) }
    {
        if number_of(&self.names, &one.name).is_some() {
            return Err(PlanFault::Syntax(number));
        }
        let starts = self.starts + one_if(one.start);
        if self.modules.len() >= MAX_MODULES || starts > MAX_STARTS {
            return Err(PlanFault::Limit(number));
        }
        self.modules.reserve(1)?;
        let next = self.modules.len() as u32;
        give_number(alloc, &mut self.names, &one.name, next)?;
        self.starts = starts;
        self.modules.push_reserved(one);
        Ok(())
    }

    fn add_guest(&mut self, number: u32, entry: Text) -> Result<(), PlanFault>
        ensures { Leaves Fails result self.new (taken number self.old (Line.Guest entry)) }
    {
        if self.guests.len() >= GUESTS as usize {
            return Err(PlanFault::Limit(number));
        }
        self.guests.push(entry)?;
        Ok(())
    }

    fn add_load(&mut self, number: u32, name: Text) -> Result<(), PlanFault>
        ensures { Leaves Fails result self.new (taken number self.old (Line.Load name)) }
    {
        let found = self.called(number, &name)?;
        self.script.push(ScriptLine::Load(found))?;
        Ok(())
    }

    fn add_retire(&mut self, number: u32, name: Text) -> Result<(), PlanFault>
        ensures { Leaves Fails result self.new (taken number self.old (Line.Retire name)) }
    {
        let found = self.called(number, &name)?;
        self.script.push(ScriptLine::Retire(found))?;
        Ok(())
    }

    // The module of this name, for a further line of the script.
    fn called(&self, number: u32, name: &Text) -> Result<u32, PlanFault>
        ensures { result ≡ (if is_none (module_of self.now.modules name.now) then Err (Syntax number)
            else (if nat_lt (length self.now.script) MAX_SCRIPT
            then Ok (unwrap_or (module_of self.now.modules name.now) 0) else Err (Limit number))) }
    {
        let Some(found) = number_of(&self.names, name) else {
            return Err(PlanFault::Syntax(number));
        };
        if self.script.len() >= MAX_SCRIPT {
            return Err(PlanFault::Limit(number));
        }
        Ok(found)
    }

    fn add_refreshes(&mut self, number: u32, count: u64) -> Result<(), PlanFault>
        ensures { Leaves Fails result self.new (taken number self.old (Line.Refresh count)) }
    {
        if self.script.len() >= MAX_SCRIPT || count > u64::from(MAX_REFRESHES - self.refreshes) {
            return Err(PlanFault::Limit(number));
        }
        self.script.push(ScriptLine::Refresh(count as u32))?;
        self.refreshes += count as u32;
        Ok(())
    }

    /// The plan that the lines have said.
    pub fn into_plan(self) -> Result<Plan, PlanFault>
        ensures { result ≡ plan_of self }
    {
        if self.guests.is_empty() {
            return Err(PlanFault::NoGuest);
        }
        Ok(Plan {
            code_words: self.code.unwrap_or(MAX_CODE_WORDS),
            versions: self.versions.unwrap_or(MAX_VERSIONS),
            first: self.first.unwrap_or(0),
            fuel: self.fuel.unwrap_or(FUEL),
            modules: Items::from_vec(self.modules),
            guests: Items::from_vec(self.guests),
            script: Items::from_vec(self.script),
        })
    }
}

// 1 for a module that is there from the start.
fn one_if(start: bool) -> u32
    ensures { result ≡ one_if start }
{
    if start { 1 } else { 0 }
}
