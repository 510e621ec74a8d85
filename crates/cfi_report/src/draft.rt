ghost use Rattle.std.specs.Prelude.{◌≡◌, OnOk};
ghost use Rattle.cfi_report.specs.inner.Draft.{ReportSoFar as Said, no_lines, is_whole, report_of, with_report_line};

use crate::line::Line;
use crate::report::{GuestPart, Report};
use crate::stage::Stage;
use cfi_plan::{Entry, ModuleLine};
use cfi_unit::{Log, Stop};
use cfi_values::{Bytes, Items, Text};
use std::alloc::{AllocError, Global};
use std::marker::Model;
use std::mem;

/// A report as far as its lines have been read.
#[derive(Drop)]
pub struct Draft {
    stage: Stage,
    epoch: u32,
    policy: u32,
    modules: Vec<ModuleLine>,
    journal: Vec<Entry>,
    guests: Vec<GuestPart>,
    // The guest whose lines are read.
    number: u32,
    entry: Text,
    log: Vec<Log>,
    out: Bytes,
    stop: Option<Stop>,
    units: u32,
}

impl Model for Draft {
    ghost use Rattle.cfi_report.specs.inner.Draft.{ReportSoFar as Said};

    ghost Value = { Said };

    ghost use Rattle.cfi_report.specs.inner.Kept.{view_of};

    ghost view = { view_of };
}

impl Draft {
    /// The draft before any line.
    pub fn new(alloc: Global) -> Draft
        ensures { result ≡ no_lines }
    {
        Draft {
            stage: Stage::Start,
            epoch: 0,
            policy: 0,
            modules: Vec::new(alloc),
            journal: Vec::new(alloc),
            guests: Vec::new(alloc),
            number: 0,
            entry: Text::from_string(String::new(alloc)),
            log: Vec::new(alloc),
            out: Bytes::from_vec(Vec::new(alloc)),
            stop: None,
            units: 0,
        }
    }

    /// What the last line was.
    pub fn stage(&self) -> Stage
        ensures { result ≡ self.now.stage }
    {
        self.stage
    }

    /// Whether the last line was read.
    pub fn is_whole(&self) -> bool
        ensures { result ≡ is_whole self.now.stage }
    {
        matches!(self.stage, Stage::Ended)
    }

    /// Adds what the line says.
    pub fn add(&mut self, alloc: Global, line: Line) -> Result<(), AllocError>
        ensures { OnOk result (self.new ≡ with_report_line self.old line) }
    {
        match line {
            Line::Title => self.stage = Stage::Titled,
            Line::Force(epoch, policy) => self.set_force(epoch, policy),
            Line::Module(module) => self.add_module(module)?,
            Line::Journal(entry) => self.add_entry(entry)?,
            Line::Guest(number, entry) => self.open_guest(alloc, number, entry),
            Line::Log(entry) => self.add_log(entry)?,
            Line::Out(bytes) => self.set_out(bytes),
            Line::Stop(stop) => self.set_stop(stop),
            Line::Units(units) => self.set_units(units),
            Line::Steps(steps) => self.close_guest(alloc, steps)?,
            Line::End => self.stage = Stage::Ended,
        }
        Ok(())
    }

    fn set_force(&mut self, epoch: u32, policy: u32)
        ensures { self.new ≡ with_report_line self.old (Line.Force epoch policy) }
    {
        self.stage = Stage::Modules;
        self.epoch = epoch;
        self.policy = policy;
    }

    fn add_module(&mut self, one: ModuleLine) -> Result<(), AllocError>
        ensures { OnOk result (self.new ≡ with_report_line self.old (Line.Module one)) }
    {
        self.stage = Stage::Modules;
        self.modules.push(one)?;
        Ok(())
    }

    fn add_entry(&mut self, entry: Entry) -> Result<(), AllocError>
        ensures { OnOk result (self.new ≡ with_report_line self.old (Line.Journal entry)) }
    {
        self.stage = Stage::Journal;
        self.journal.push(entry)?;
        Ok(())
    }

    fn open_guest(&mut self, alloc: Global, number: u32, entry: Text)
        ensures { self.new ≡ with_report_line self.old (Line.Guest number entry) }
    {
        self.stage = Stage::Log(None);
        self.number = number;
        self.entry = entry;
        self.log = Vec::new(alloc);
    }

    fn add_log(&mut self, entry: Log) -> Result<(), AllocError>
        ensures { OnOk result (self.new ≡ with_report_line self.old (Line.Log entry)) }
    {
        self.stage = Stage::Log(Some(entry));
        self.log.push(entry)?;
        Ok(())
    }

    fn set_out(&mut self, bytes: Bytes)
        ensures { self.new ≡ with_report_line self.old (Line.Out bytes) }
    {
        self.stage = Stage::Out;
        self.out = bytes;
    }

    fn set_stop(&mut self, stop: Option<Stop>)
        ensures { self.new ≡ with_report_line self.old (Line.Stop stop) }
    {
        self.stage = Stage::Stop;
        self.stop = stop;
    }

    fn set_units(&mut self, units: u32)
        ensures { self.new ≡ with_report_line self.old (Line.Units units) }
    {
        self.stage = Stage::Units;
        self.units = units;
    }

    // The guest's last line ends its part.
    fn close_guest(&mut self, alloc: Global, steps: u32) -> Result<(), AllocError>
        ensures { OnOk result (self.new ≡ with_report_line self.old (Line.Steps steps)) }
    {
        let no_entry = Text::from_string(String::new(alloc));
        let part = GuestPart {
            number: self.number,
            entry: mem::replace(&mut self.entry, no_entry),
            log: Items::from_vec(mem::replace(&mut self.log, Vec::new(alloc))),
            out: mem::replace(&mut self.out, Bytes::from_vec(Vec::new(alloc))),
            stop: self.stop,
            units: self.units,
            steps,
        };
        self.stage = Stage::Guests;
        self.guests.push(part)?;
        Ok(())
    }

    /// The report of what was read.
    pub fn into_report(self) -> Report
        ensures { result ≡ report_of self }
    {
        Report {
            epoch: self.epoch,
            policy: self.policy,
            modules: Items::from_vec(self.modules),
            journal: Items::from_vec(self.journal),
            guests: Items::from_vec(self.guests),
        }
    }
}
