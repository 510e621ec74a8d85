//! Whether bytes are a report.

use cfi_report::{ReportFault, read_report, write_report};
use std::alloc::{AllocError, Global};

/// What is wrong with the bytes of a report, or with those that should be none from this line on; `None` for nothing.
pub fn report_fault(
    alloc: Global,
    bytes: &[u8],
    line: Option<u32>,
) -> Result<Option<String>, AllocError> {
    if bytes.len() >= 1 << 20 {
        return Ok(Some("a report that is too long".to_string(alloc)?));
    }
    match (read_report(alloc, bytes), line) {
        (Ok(report), None) => {
            let written = write_report(alloc, &report)?;
            if written.as_slice() == bytes {
                return Ok(None);
            }
            Ok(Some("a report that is not written again".to_string(alloc)?))
        }
        (Ok(_), Some(line)) => Ok(Some(format!(in alloc; "a report, wanted no line {line}")?)),
        (Err(ReportFault::Syntax(came)), wanted) if wanted == Some(came) => Ok(None),
        (Err(ReportFault::Syntax(came)), _) => Ok(Some(format!(in alloc; "no line {came}")?)),
        (Err(ReportFault::Memory), _) => Err(AllocError),
    }
}
