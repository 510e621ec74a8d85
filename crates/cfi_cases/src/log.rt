//! What differs, and how many cases there were.

use std::alloc::{AllocError, Global};

// The most bytes that are shown.
const SHOWN: usize = 60;

/// The differences so far, a line each, and how many cases and differences there were.
#[derive(Debug, Drop)]
pub struct Log {
    alloc: Global,
    /// The name of the file of cases.
    pub source: String,
    /// The title of the case.
    pub title: String,
    lines: String,
    cases: u32,
    differences: u32,
}

impl Log {
    /// No case so far.
    pub fn new(alloc: Global) -> Self {
        Log {
            alloc,
            source: String::new(alloc),
            title: String::new(alloc),
            lines: String::new(alloc),
            cases: 0,
            differences: 0,
        }
    }

    /// Counts a case.
    pub fn count(&mut self) {
        self.cases = self.cases.saturating_add(1);
    }

    /// Notes that something differs, at this line of the file of cases.
    pub fn note(&mut self, line: usize, what: &str) -> Result<(), AllocError> {
        self.differences = self.differences.saturating_add(1);
        let (source, title) = (self.source.as_str(), self.title.as_str());
        let text = format!(in self.alloc; "{source}:{line}: {title}: {what}\n")?;
        self.lines.push_str(&text)
    }

    /// Notes where the bytes of this thing differ from the wanted ones.
    pub fn compare(
        &mut self,
        line: usize,
        thing: &str,
        wanted: &[u8],
        came: &[u8],
    ) -> Result<(), AllocError> {
        if wanted == came {
            return Ok(());
        }
        let same = wanted
            .iter()
            .zip(came.iter())
            .take_while(|pair| pair.0 == pair.1)
            .count();
        let (wanted, came) = (
            text_from(self.alloc, wanted, same)?,
            text_from(self.alloc, came, same)?,
        );
        let what = format!(in self.alloc;
            "{thing} from byte {same} on: wanted {wanted}, came {came}"
        )?;
        self.note(line, &what)
    }

    /// Notes the first of these lines that does not stand among those of the text, behind the ones before it.
    pub fn find(&mut self, line: usize, wanted: &[u8], came: &[u8]) -> Result<(), AllocError> {
        let mut rest = came.split(|byte| *byte == b'\n');
        for one in wanted.split(|byte| *byte == b'\n') {
            if !rest.any(|other| other == one) {
                let one = text_from(self.alloc, one, 0)?;
                return self.note(line, &format!(in self.alloc; "no line {one} there")?);
            }
        }
        Ok(())
    }

    /// The differences, and the two numbers on the last line.
    pub fn report(&self) -> Result<String, AllocError> {
        let lines = self.lines.as_str();
        let (cases, differences) = (self.cases, self.differences);
        format!(in self.alloc; "{lines}{cases} cases, {differences} differ\n")
    }
}

// The bytes from a place on, as a text where they are one, else by their digits.
fn text_from(alloc: Global, bytes: &[u8], from: usize) -> Result<String, AllocError> {
    let rest = bytes.get(from..).unwrap_or(&[]);
    let part = rest.get(..SHOWN).unwrap_or(rest);
    if part.iter().all(|byte| *byte == b'\n' || byte.is_ascii_graphic() || *byte == b' ') {
        let text = String::from_utf8_lossy(alloc, part)?;
        return format!(in alloc; "{text:?}");
    }
    hex::encode(alloc, part)
}
