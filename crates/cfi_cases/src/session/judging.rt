//! What is asked of the last command, and of files.

use crate::reports::report_fault;
use crate::session::Session;
use std::alloc::AllocError;

impl Session {
    /// Asks for the status of the last command, and hands out the text.
    pub fn judge_status(&mut self, line: usize, status: u8) -> Result<Option<Vec<u8>>, AllocError> {
        let Some(answer) = self.answer.take() else {
            self.log.note(line, "no command was run before this line")?;
            return Ok(None);
        };
        if answer.status != status {
            let came = answer.status;
            let what = format!(in self.alloc; "status: wanted {status}, came {came}")?;
            self.log.note(line, &what)?;
        }
        Ok(Some(answer.text))
    }

    /// Asks for the status and the text of the last command.
    pub fn judge(&mut self, line: usize, status: u8, text: &[u8]) -> Result<(), AllocError> {
        match self.judge_status(line, status)? {
            Some(came) => self.log.compare(line, "text", text, &came),
            None => Ok(()),
        }
    }

    /// Asks for the status of the last command, and for lines of its text.
    pub fn judge_lines(&mut self, line: usize, status: u8, lines: &[u8]) -> Result<(), AllocError> {
        match self.judge_status(line, status)? {
            Some(came) => self.log.find(line, lines, &came),
            None => Ok(()),
        }
    }

    /// Asks for the bytes of a file.
    pub fn judge_file(
        &mut self,
        line: usize,
        name: &str,
        place: Option<usize>,
        bytes: &[u8],
    ) -> Result<(), AllocError> {
        let part = place.map(|at| (at, bytes.len()));
        let Some(file) = self.files.copy(name, part)? else {
            return self
                .log
                .note(line, "the file, or this part of it, is not there");
        };
        self.log.compare(line, name, bytes, &file)
    }

    /// Asks that no file has the name.
    pub fn judge_gone(&mut self, line: usize, name: &str) -> Result<(), AllocError> {
        if self.files.file(name).is_some() {
            return self.log.note(line, "the file is there");
        }
        Ok(())
    }

    /// Asks how often the gate was passed in the last command.
    pub fn judge_gate(&mut self, line: usize, passes: u32) -> Result<(), AllocError> {
        let came = self.passes;
        if came == passes {
            return Ok(());
        }
        let what = format!(in self.alloc; "the gate: wanted {passes}, came {came}")?;
        self.log.note(line, &what)
    }

    /// Asks for a report, or for none from this line on.
    pub fn judge_report(
        &mut self,
        line: usize,
        bytes: &[u8],
        wanted: Option<u32>,
    ) -> Result<(), AllocError> {
        self.log.count();
        match report_fault(self.alloc, bytes, wanted)? {
            Some(what) => self.log.note(line, &what),
            None => Ok(()),
        }
    }
}
