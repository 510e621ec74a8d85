//! Plays entries: the files of a group, what the last command answered, and what differs.

mod judging;

use crate::entry::{Commands, Entry, Head};
use crate::files::Files;
use crate::gate::CountingGate;
use crate::log::Log;
use cfi_io::MemSink;
use cfi_top::top;
use std::alloc::{AllocError, Global};
use std::mem;
use std::sync::Wait;
use std::thread::Threads;

// What a command has answered.
#[derive(Debug, Drop)]
struct Answer {
    status: u8,
    text: Vec<u8>,
}

// The table whose rows follow.
#[derive(Debug, Drop)]
struct Table {
    name: String,
    base: Vec<u8>,
    commands: Commands,
}

/// A play of cases.
#[derive(Debug, Drop)]
pub struct Session {
    alloc: Global,
    files: Files,
    shelf_fails: Vec<u32>,
    sink_fails: Vec<u32>,
    // What no line has asked for yet.
    answer: Option<Answer>,
    // How often the gate was passed in the last command.
    passes: u32,
    table: Option<Table>,
    log: Log,
}

impl Session {
    /// A play of no cases so far, over a shelf without files.
    pub fn new(alloc: Global) -> Self {
        Session {
            alloc,
            files: Files::new(alloc),
            shelf_fails: Vec::new(alloc),
            sink_fails: Vec::new(alloc),
            answer: None,
            passes: 0,
            table: None,
            log: Log::new(alloc),
        }
    }

    /// What differs, a line each, and how many cases there were.
    pub fn report(&self) -> Result<String, AllocError> {
        self.log.report()
    }

    /// Plays the entries of a file, over a shelf without files.
    pub fn play<R: Threads + Wait + Sync>(
        &mut self,
        rt: &R,
        source: &str,
        entries: &[Entry],
    ) -> Result<(), AllocError> {
        self.log.source = source.to_string(self.alloc)?;
        self.begin_group("")?;
        for entry in entries {
            self.take(rt, entry)?;
        }
        self.settle(0)
    }

    /// Notes that the file of this name can't be read.
    pub fn miss(&mut self, source: &str) -> Result<(), AllocError> {
        self.log.source = source.to_string(self.alloc)?;
        self.log.note(0, "no file of cases")
    }

    // Plays an entry, where its bytes are there.
    fn take<R: Threads + Wait + Sync>(&mut self, rt: &R, entry: &Entry) -> Result<(), AllocError> {
        let empty: [u8; 0] = [];
        let base = match (&entry.head, &self.table) {
            (Head::Row(_, _), Some(table)) => table.base.as_slice(),
            _ => empty.as_slice(),
        };
        match self.files.bytes_over(base, &entry.pieces)? {
            Some(bytes) => self.step(rt, entry.line, &entry.head, bytes),
            None => self
                .log
                .note(entry.line, "it asks for bytes that are not there"),
        }
    }

    // Does what a line says, with the bytes of its entry.
    fn step<R: Threads + Wait + Sync>(
        &mut self,
        rt: &R,
        line: usize,
        head: &Head,
        bytes: Vec<u8>,
    ) -> Result<(), AllocError> {
        match head {
            Head::Group(title) => self.begin_group(title),
            Head::File(name) => self.files.put(name, bytes),
            Head::Case(title) => self.entitle(title),
            Head::FailShelf(numbers) => self.fail_shelf(numbers),
            Head::FailSink(numbers) => self.fail_sink(numbers),
            Head::Run(commands) => self.run(rt, line, commands),
            Head::Status(status) => self.judge(line, *status, &bytes),
            Head::Lines(status) => self.judge_lines(line, *status, &bytes),
            Head::Left(name, place) => self.judge_file(line, name, *place, &bytes),
            Head::Gone(name) => self.judge_gone(line, name),
            Head::Gate(passes) => self.judge_gate(line, *passes),
            Head::Report(wanted) => self.judge_report(line, &bytes, *wanted),
            Head::Table(name, commands) => self.begin_table(name, bytes, commands),
            Head::Row(status, text) => self.row(rt, line, bytes, *status, text),
            Head::Bad => self.log.note(line, "no line of cases"),
        }
    }

    fn begin_group(&mut self, title: &str) -> Result<(), AllocError> {
        self.files = Files::new(self.alloc);
        self.table = None;
        self.entitle(title)
    }

    fn entitle(&mut self, title: &str) -> Result<(), AllocError> {
        self.log.title = title.to_string(self.alloc)?;
        Ok(())
    }

    fn fail_shelf(&mut self, numbers: &[u32]) -> Result<(), AllocError> {
        self.shelf_fails = numbers.to_vec(self.alloc)?;
        Ok(())
    }

    fn fail_sink(&mut self, numbers: &[u32]) -> Result<(), AllocError> {
        self.sink_fails = numbers.to_vec(self.alloc)?;
        Ok(())
    }

    fn begin_table(
        &mut self,
        name: &str,
        base: Vec<u8>,
        commands: &Commands,
    ) -> Result<(), AllocError> {
        let name = name.to_string(self.alloc)?;
        let commands = commands.clone()?;
        self.table = Some(Table {
            name,
            base,
            commands,
        });
        Ok(())
    }

    // Notes where no line has asked for what the last command answered.
    fn settle(&mut self, line: usize) -> Result<(), AllocError> {
        match self.answer.take() {
            Some(_) => self
                .log
                .note(line, "no status was asked for before this line"),
            None => Ok(()),
        }
    }

    // Runs a command, over a shelf and a sink whose calls with these numbers fail.
    fn command<R: Threads + Wait + Sync>(
        &mut self,
        rt: &R,
        words: &[String],
        shelf_fails: Vec<u32>,
        sink_fails: Vec<u32>,
    ) -> Result<(), AllocError> {
        let mut shelf = self.files.shelf(shelf_fails)?;
        let mut sink = MemSink::new(self.alloc, sink_fails);
        let gate = CountingGate::new();
        let ended = top(rt, self.alloc, words, &mut shelf, &mut sink, &gate);
        self.passes = gate.passes();
        for word in words {
            if let Some(bytes) = shelf.file(word) {
                self.files.put(word, bytes.to_vec(self.alloc)?)?;
            }
        }
        let text = sink.written().to_vec(self.alloc)?;
        self.answer = Some(Answer {
            status: ended.status,
            text,
        });
        Ok(())
    }

    // Runs the commands of a case.
    fn run<R: Threads + Wait + Sync>(
        &mut self,
        rt: &R,
        line: usize,
        commands: &Commands,
    ) -> Result<(), AllocError> {
        self.settle(line)?;
        for words in &commands.first {
            self.command(rt, words, Vec::new(self.alloc), Vec::new(self.alloc))?;
            self.judge(line, 0, b"")?;
        }
        let shelf_fails = mem::replace(&mut self.shelf_fails, Vec::new(self.alloc));
        let sink_fails = mem::replace(&mut self.sink_fails, Vec::new(self.alloc));
        self.log.count();
        self.command(rt, &commands.last, shelf_fails, sink_fails)
    }

    // Plays a row of the table.
    fn row<R: Threads + Wait + Sync>(
        &mut self,
        rt: &R,
        line: usize,
        bytes: Vec<u8>,
        status: u8,
        text: &[u8],
    ) -> Result<(), AllocError> {
        let Some(table) = self.table.take() else {
            return self.log.note(line, "no table has this row");
        };
        self.files.put(&table.name, bytes)?;
        self.run(rt, line, &table.commands)?;
        self.judge(line, status, text)?;
        self.table = Some(table);
        Ok(())
    }
}
