//! What the lines of a source have made so far: its text and data.

ghost use Rattle.std.specs.Prelude.{◌≡◌, ◌≤◌, length};
ghost use Rattle.rv_line.specs.declared.statement.Statement.TheVariants as statements;
ghost use Rattle.rv_asm.specs.inner.Draft.{empty, has_relocs, with_words, with_code, with_jump, with_data, with_datum, with_zeros, with_word};
ghost use Rattle.rv_asm.specs.inner.Passes.{or_range, Gives};

use crate::code::words_of;
use crate::fault::AsmFault;
use crate::relocs::{reloc_by, relocs_of};
use crate::step::Step;
use crate::words::{Words, low_word};
use cfi_aux::{Function, Kind};
use cfi_type_table::TypeNode;
use cfi_word::limits::{MAX_BRANCHES, MAX_DATA, MAX_RELOCS, MAX_WORDS};
use elf_read::relocation::WORD;
use elf_read::{Area, Reloc};
use rv_line::{Datum, Statement};
use std::alloc::Global;
use std::marker::Model;

/// What the lines of a source have made so far.
#[derive(Drop)]
pub struct Draft {
    pub(crate) text: Vec<u8>,
    pub(crate) data_bytes: Vec<u8>,
    pub(crate) text_relocs: Vec<Reloc>,
    pub(crate) data_relocs: Vec<Reloc>,
    pub(crate) nodes: Vec<TypeNode>,
    pub(crate) functions: Vec<Function>,
    pub(crate) branches: Vec<Kind>,
    // The kind that is set for the next indirect jump.
    pub(crate) kind: Option<Kind>,
    // The function that is open, of length 0.
    pub(crate) function: Option<Function>,
}

impl Model for Draft {
    ghost use Rattle.rv_asm.specs.inner.Draft.{Draft as Made};

    ghost Value = { Made };

    ghost use Rattle.rv_asm.specs.inner.Kept.{draft_of, IsWritable};

    ghost view = { draft_of };

    ghost invariant = { IsWritable };
}

impl Draft {
    /// Before the first line.
    pub fn new(alloc: Global) -> Draft
        ensures { result ≡ empty }
    {
        Draft {
            text: Vec::new(alloc),
            data_bytes: Vec::new(alloc),
            text_relocs: Vec::new(alloc),
            data_relocs: Vec::new(alloc),
            nodes: Vec::new(alloc),
            functions: Vec::new(alloc),
            branches: Vec::new(alloc),
            kind: None,
            function: None,
        }
    }

    fn has_relocs(&self, count: usize) -> bool
        requires { count ≤ 2 }
        ensures { result ≡ has_relocs self.now count }
    {
        self.text_relocs.len() + self.data_relocs.len() <= MAX_RELOCS - count
    }

    // Adds words of text with their relocations.
    fn add_words(&mut self, step: &Step, added: &[Reloc], words: Words) -> Result<(), AsmFault>
        requires { length added.now ≤ 2 }
        ensures { let row = step.now.row.now in Gives result self.new
            (or_range row.number (with_words row.spot self.old added.now words)) }
    {
        let number = step.row.number;
        let end = step.row.spot.text_end as usize + words.size() as usize;
        if end > 4 * MAX_WORDS || !self.has_relocs(added.len()) {
            return Err(AsmFault::Range(number));
        }
        self.text_relocs.extend_from_slice(added)?;
        words.put(&mut self.text)?;
        Ok(())
    }

    // Adds the words of a statement.
    pub(crate) fn add_code(&mut self, step: &Step, statement: &Statement) -> Result<(), AsmFault>
        ensures { let row = step.now.row.now in Gives result self.new
            (or_range row.number (with_code step.now.file.now row.spot self.old statement.now)) }
    {
        let number = step.row.number;
        let spot = step.row.spot;
        let names = &step.file.names;
        let Some(words) = words_of(names, spot.text_end, statement) else {
            return Err(AsmFault::Range(number));
        };
        if spot.text_end as usize > 4 * MAX_WORDS {
            return Err(AsmFault::Range(number));
        }
        let added = relocs_of(step.alloc, names, spot, statement)?;
        self.add_words(step, added.as_slice(), words)
    }

    // Gives the next indirect jump its kind.
    pub(crate) fn add_jump(&mut self, number: u32, records: bool) -> Result<(), AsmFault>
        ensures { Gives result self.new (or_range number (with_jump records self.old)) }
    {
        if !records {
            return Ok(());
        }
        if self.branches.len() >= MAX_BRANCHES as usize {
            return Err(AsmFault::Range(number));
        }
        let kind = self.kind.take().unwrap_or(Kind::Return);
        self.branches.push(kind)?;
        Ok(())
    }

    // Adds a word of data with its relocations.
    fn add_data(&mut self, step: &Step, word: u32, added: &[Reloc]) -> Result<(), AsmFault>
        requires { length added.now ≤ 2 }
        ensures { let row = step.now.row.now in Gives result self.new
            (or_range row.number (with_data row.spot self.old word added.now)) }
    {
        let number = step.row.number;
        let end = step.row.spot.data_end as usize + 4;
        if end > MAX_DATA || !self.has_relocs(added.len()) {
            return Err(AsmFault::Range(number));
        }
        self.data_relocs.extend_from_slice(added)?;
        self.data_bytes.extend_from_slice(&word.to_le_bytes())?;
        Ok(())
    }

    fn add_datum(&mut self, step: &Step, datum: &Datum) -> Result<(), AsmFault>
        ensures { let row = step.now.row.now in Gives result self.new
            (or_range row.number (with_datum step.now.file.now.names row.spot self.old datum.now)) }
    {
        match datum {
            Datum::Number(value) => self.add_data(step, low_word(*value), &[]),
            Datum::Name(name) => {
                let end = step.row.spot.data_end;
                let reloc = reloc_by(&step.file.names, Area::Data, end, WORD, name.as_str());
                self.add_data(step, 0, &[reloc])
            }
        }
    }

    pub(crate) fn add_zeros(&mut self, step: &Step, count: i64) -> Result<(), AsmFault>
        ensures { let row = step.now.row.now in Gives result self.new
            (or_range row.number (with_zeros row.spot self.old count)) }
    {
        if count < 0 || count > (MAX_DATA as i64) - i64::from(step.row.spot.data_end) {
            return Err(AsmFault::Range(step.row.number));
        }
        let length = self.data_bytes.len() + count as usize;
        self.data_bytes.resize(length, 0)?;
        Ok(())
    }

    pub(crate) fn add_word(
        &mut self,
        step: &Step,
        statement: &Statement,
        datum: &Datum,
    ) -> Result<(), AsmFault>
        requires { statement.now ≡ statements.Word datum.now }
        ensures { let row = step.now.row.now in Gives result self.new (or_range row.number
            (with_word row.spot.area step.now.file.now row.spot self.old datum.now)) }
    {
        match step.row.spot.area {
            Area::Text => self.add_code(step, statement),
            Area::Data => self.add_datum(step, datum),
        }
    }
}
