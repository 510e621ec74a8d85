//! Reads records from their bytes.

ghost use Rattle.std.specs.Prelude.{IfOk, Ok, Some};
ghost use Rattle.cfi_aux.specs.declared.records.Records.{Records};
ghost use Rattle.cfi_aux.specs.Records.{Spells};
ghost use Rattle.cfi_aux.specs.Modules.{SpellsWithin};
ghost use Rattle.cfi_aux.specs.Reading.{ReadingGives};
ghost use Rattle.cfi_aux.specs.Fault.{records_at, records_within, records_in};

use crate::fault::AuxFault;
use crate::records::Records;
use crate::version::RecordVersion;
use crate::word::{count_from, version_from};
use cfi_type_table::TypeTable;
use cfi_values::Items;
use cfi_word::limits::{MAX_BRANCHES, MAX_FUNCTIONS};
use std::alloc::Global;

/// Reads records of one version.
#[derive(Drop)]
pub struct RecordReader<'a> {
    /// The heap on which it keeps what it reads.
    pub alloc: Global,
    /// The version of the records.
    pub version: RecordVersion,
    /// The types that they name nodes of.
    pub types: &'a TypeTable,
    /// How many bytes of data the module has, where that is known.
    pub size: Option<usize>,
}

impl<'a> RecordReader<'a> {
    #[tactic(auto, unfolding(crate::specs::Fault::records_at, crate::specs::Reading::seen_as, crate::specs::Reading::and_with, crate::specs::Reading::and_also))]
    fn records_from<'b>(&self, bytes: &'b [u8]) -> Result<(Records, &'b [u8]), AuxFault>
        ensures { ReadingGives (λ x. (x.0, x.1.now)) result
            (records_at self.now.version self.now.types.now self.now.size bytes.now) }
    {
        let (function_count, rest) = count_from(MAX_FUNCTIONS, bytes)?;
        let (branch_count, rest) = count_from(MAX_BRANCHES, rest)?;
        let (functions, rest) = self.functions_from(function_count, rest)?;
        let (branches, rest) = self.branches_from(function_count, branch_count, rest)?;
        let records = Records {
            functions: Items::from_vec(functions),
            branches: Items::from_vec(branches),
        };
        Ok((records, rest))
    }
}

#[tactic(auto, unfolding(crate::specs::Fault::records_within, crate::specs::Fault::whole_at, crate::specs::Reading::and_with))]
fn all_of(
    alloc: Global,
    bytes: &[u8],
    types: &TypeTable,
    size: Option<usize>,
) -> Result<Records, AuxFault>
    ensures { ReadingGives (λ records. records) result (records_within types.now size bytes.now) }
{
    let (version, rest) = version_from(bytes)?;
    let reader = RecordReader {
        alloc,
        version,
        types,
        size,
    };
    let (records, rest) = reader.records_from(rest)?;
    if !rest.is_empty() {
        return Err(AuxFault::Short);
    }
    Ok(records)
}

/// The records that the bytes spell, all of the bytes, with the type table that they name nodes of.
///
/// Words with the version, the number of functions and the number of branches; then each function as its offset, its
/// length, its type, its flags and its name; then each branch as its kind, the number of its words, and these. Words
/// are of four bytes, the lowest first. In version 1 types are functions with fixed arguments, in version 2 they may
/// have variable ones, and in version 3 branches may be imports as well. A fault is the first from left to right. MCFI,
/// auxiliary information.
pub fn read_records(alloc: Global, bytes: &[u8], types: &TypeTable) -> Result<Records, AuxFault>
    // What is read are records of a version, and the bytes are their spelling in it.
    ensures ok { IfOk result (Spells types.now bytes.now) }
    // What is spelled so is read.
    ensures only { (records : Records) → Spells types.now bytes.now records →
        ReadingGives (λ found. found) result (Ok records) }
    // Which fault it is.
    ensures fault { ReadingGives (λ found. found) result (records_in types.now bytes.now) }
{
    all_of(alloc, bytes, types, None)
}

/// The records that the bytes spell, as `read_records` reads them, of a module with `size` bytes of data: an import
/// whose cell does not lie within these is malformed.
pub fn records_of_data(
    alloc: Global,
    bytes: &[u8],
    types: &TypeTable,
    size: usize,
) -> Result<Records, AuxFault>
    // What is read are records of a version, with cells within the data, and the bytes are their spelling in it.
    ensures ok { IfOk result (SpellsWithin types.now size bytes.now) }
    // Which fault it is.
    ensures fault { ReadingGives (λ found. found) result
        (records_within types.now (Some size) bytes.now) }
{
    all_of(alloc, bytes, types, Some(size))
}
