//! Words from the front of bytes.

ghost use Rattle.std.specs.Prelude.{◌≤◌, nat_le, IfOk};
ghost use Rattle.cfi_aux.specs.declared.fault.AuxFault.TheVariants.{BadRecord};
ghost use Rattle.cfi_aux.specs.Reading.{ReadingGives, word_where};
ghost use Rattle.cfi_aux.specs.Format.{is_whole, is_length, is_flag, is_name_length, fits_import, is_cell_in, has_count};
ghost use Rattle.cfi_aux.specs.Version.{is_type, last_kind};
ghost use Rattle.cfi_aux.specs.Fault.{count_at, version_at};

use crate::fault::AuxFault;
use crate::format::{
    fits_import, has_count, is_cell_in, is_flag, is_length, is_name_length, is_whole,
};
use crate::version::{RecordVersion, is_type, last_kind, version_of};
use cfi_type_table::{TypeTable, split_word};

/// The version, whose word stands first.
#[tactic(auto, unfolding(crate::specs::Fault::version_at))]
pub fn version_from(bytes: &[u8]) -> Result<(RecordVersion, &[u8]), AuxFault>
    ensures { ReadingGives (λ x. (x.0, x.1.now)) result (version_at bytes.now) }
{
    let (word, rest) = split_word(bytes).ok_or(AuxFault::Version)?;
    match version_of(word) {
        Some(version) => Ok((version, rest)),
        None => Err(AuxFault::Version),
    }
}

/// A number of records, at most `limit`.
#[tactic(auto, unfolding(crate::specs::Reading::word_where))]
pub fn count_from(limit: u32, bytes: &[u8]) -> Result<(u32, &[u8]), AuxFault>
    ensures read { ReadingGives (λ x. (x.0, x.1.now)) result (count_at limit bytes.now) }
    ensures within { IfOk result (λ x. x.0 ≤ limit) }
{
    let (count, rest) = split_word(bytes).ok_or(AuxFault::Short)?;
    if count > limit {
        return Err(AuxFault::BadRecord(limit));
    }
    Ok((count, rest))
}

/// Where a function begins or a switch leads, in record `number`.
#[tactic(auto, unfolding(crate::specs::Reading::word_where))]
pub fn place_from(number: u32, bytes: &[u8]) -> Result<(u32, &[u8]), AuxFault>
    ensures { ReadingGives (λ x. (x.0, x.1.now)) result
        (word_where is_whole (BadRecord number) bytes.now) }
{
    let (word, rest) = split_word(bytes).ok_or(AuxFault::Short)?;
    if !is_whole(word) {
        return Err(AuxFault::BadRecord(number));
    }
    Ok((word, rest))
}

/// The length of the function of record `number`.
#[tactic(auto, unfolding(crate::specs::Reading::word_where))]
pub fn length_from(number: u32, bytes: &[u8]) -> Result<(u32, &[u8]), AuxFault>
    ensures { ReadingGives (λ x. (x.0, x.1.now)) result
        (word_where is_length (BadRecord number) bytes.now) }
{
    let (word, rest) = split_word(bytes).ok_or(AuxFault::Short)?;
    if !is_length(word) {
        return Err(AuxFault::BadRecord(number));
    }
    Ok((word, rest))
}

/// The type of record `number`, one of functions.
#[tactic(auto, unfolding(crate::specs::Reading::word_where))]
pub fn type_from<'a>(
    version: RecordVersion,
    types: &TypeTable,
    number: u32,
    bytes: &'a [u8],
) -> Result<(u32, &'a [u8]), AuxFault>
    ensures { ReadingGives (λ x. (x.0, x.1.now)) result
        (word_where (is_type version types.now) (BadRecord number) bytes.now) }
{
    let (word, rest) = split_word(bytes).ok_or(AuxFault::Short)?;
    if !is_type(version, types, word) {
        return Err(AuxFault::BadRecord(number));
    }
    Ok((word, rest))
}

/// The flags of the function of record `number`.
#[tactic(auto, unfolding(crate::specs::Reading::word_where))]
pub fn flags_from(number: u32, bytes: &[u8]) -> Result<(u32, &[u8]), AuxFault>
    ensures { ReadingGives (λ x. (x.0, x.1.now)) result
        (word_where is_flag (BadRecord number) bytes.now) }
{
    let (word, rest) = split_word(bytes).ok_or(AuxFault::Short)?;
    if !is_flag(word) {
        return Err(AuxFault::BadRecord(number));
    }
    Ok((word, rest))
}

/// The number of bytes of the name in record `number`.
#[tactic(auto, unfolding(crate::specs::Reading::word_where))]
pub fn name_length_from(number: u32, bytes: &[u8]) -> Result<(u32, &[u8]), AuxFault>
    ensures { ReadingGives (λ x. (x.0, x.1.now)) result
        (word_where is_name_length (BadRecord number) bytes.now) }
{
    let (word, rest) = split_word(bytes).ok_or(AuxFault::Short)?;
    if !is_name_length(word) {
        return Err(AuxFault::BadRecord(number));
    }
    Ok((word, rest))
}

/// The number of bytes of the name of the import of record `number`, which has `count` words.
#[tactic(auto, unfolding(crate::specs::Reading::word_where))]
pub fn import_length_from(number: u32, count: u32, bytes: &[u8]) -> Result<(u32, &[u8]), AuxFault>
    ensures { ReadingGives (λ x. (x.0, x.1.now)) result
        (word_where (fits_import count) (BadRecord number) bytes.now) }
{
    let (word, rest) = split_word(bytes).ok_or(AuxFault::Short)?;
    if !fits_import(count, word) {
        return Err(AuxFault::BadRecord(number));
    }
    Ok((word, rest))
}

/// Where the cell of the import of record `number` begins, in data of `size` bytes where that is known.
#[tactic(auto, unfolding(crate::specs::Reading::word_where))]
pub fn cell_from(size: Option<usize>, number: u32, bytes: &[u8]) -> Result<(u32, &[u8]), AuxFault>
    ensures { ReadingGives (λ x. (x.0, x.1.now)) result
        (word_where (is_cell_in size) (BadRecord number) bytes.now) }
{
    let (word, rest) = split_word(bytes).ok_or(AuxFault::Short)?;
    if !is_cell_in(size, word) {
        return Err(AuxFault::BadRecord(number));
    }
    Ok((word, rest))
}

/// The kind of the branch of record `number`, which the version has.
#[tactic(auto, unfolding(crate::specs::Reading::word_where))]
pub fn kind_from(
    version: RecordVersion,
    number: u32,
    bytes: &[u8],
) -> Result<(u32, &[u8]), AuxFault>
    ensures { ReadingGives (λ x. (x.0, x.1.now)) result
        (word_where (λ kind. nat_le kind (last_kind version)) (BadRecord number) bytes.now) }
{
    let (word, rest) = split_word(bytes).ok_or(AuxFault::Short)?;
    if word > last_kind(version) {
        return Err(AuxFault::BadRecord(number));
    }
    Ok((word, rest))
}

/// How many words the branch of record `number` and of this kind has.
#[tactic(auto, unfolding(crate::specs::Reading::word_where))]
pub fn word_count_from(kind: u32, number: u32, bytes: &[u8]) -> Result<(u32, &[u8]), AuxFault>
    ensures { ReadingGives (λ x. (x.0, x.1.now)) result
        (word_where (has_count kind) (BadRecord number) bytes.now) }
{
    let (word, rest) = split_word(bytes).ok_or(AuxFault::Short)?;
    if !has_count(kind, word) {
        return Err(AuxFault::BadRecord(number));
    }
    Ok((word, rest))
}
