//! Names of functions and of imports.

ghost use Rattle.std.specs.Prelude.{◌≡◌};
ghost use Rattle.cfi_aux.specs.Reading.{ReadingGives};
ghost use Rattle.cfi_aux.specs.Format.{fits_import};
ghost use Rattle.cfi_aux.specs.Records.{padding};
ghost use Rattle.cfi_aux.specs.Fault.{text_at, zeroes_at, padded_at, name_where, name_at};

use crate::fault::AuxFault;
use crate::word::{import_length_from, name_length_from};
use elf_read::Name;
use std::alloc::Global;

#[tactic(auto, unfolding(crate::specs::Fault::text_at))]
fn text_from(
    alloc: Global,
    number: u32,
    length: usize,
    bytes: &[u8],
) -> Result<(Name, &[u8]), AuxFault>
    ensures { ReadingGives (λ x. (x.0, x.1.now)) result (text_at number length bytes.now) }
{
    if bytes.len() < length {
        return Err(AuxFault::Short);
    }
    let (front, rest) = bytes.split_at(length);
    match str::from_utf8(front) {
        Ok(text) => {
            let text = String::from_str(alloc, text)?;
            Ok((Name::from_string(text), rest))
        }
        Err(_) => Err(AuxFault::BadRecord(number)),
    }
}

fn after_zeroes(number: u32, count: usize, bytes: &[u8]) -> Result<&[u8], AuxFault>
    ensures { ReadingGives (λ x. (tt, x.now)) result (zeroes_at number count bytes.now) }
{
    let mut rest = bytes;
    for _ in 0..count {
        let Some((byte, after)) = rest.split_first() else {
            return Err(AuxFault::Short);
        };
        if *byte != 0 {
            return Err(AuxFault::BadRecord(number));
        }
        rest = after;
    }
    Ok(rest)
}

/// How many zero bytes follow a name of this length.
pub fn padding(length: usize) -> usize
    ensures { result ≡ padding length }
{
    (4 - length % 4) % 4
}

#[tactic(auto, unfolding(crate::specs::Fault::padded_at, crate::specs::Reading::seen_as, crate::specs::Reading::and_also))]
fn padded_from(
    alloc: Global,
    number: u32,
    length: usize,
    bytes: &[u8],
) -> Result<(Name, &[u8]), AuxFault>
    ensures { ReadingGives (λ x. (x.0, x.1.now)) result (padded_at number length bytes.now) }
{
    let (name, rest) = text_from(alloc, number, length, bytes)?;
    let rest = after_zeroes(number, padding(length), rest)?;
    Ok((name, rest))
}

/// The name in record `number`, with its length before it and zero bytes after it.
#[tactic(auto, unfolding(crate::specs::Fault::name_where, crate::specs::Reading::seen_as, crate::specs::Reading::and_with))]
pub fn name_from(alloc: Global, number: u32, bytes: &[u8]) -> Result<(Name, &[u8]), AuxFault>
    ensures { ReadingGives (λ x. (x.0, x.1.now)) result (name_at number bytes.now) }
{
    let (length, rest) = name_length_from(number, bytes)?;
    let (name, rest) = padded_from(alloc, number, length as usize, rest)?;
    Ok((name, rest))
}

/// The same name, of an import that has `count` words.
#[tactic(auto, unfolding(crate::specs::Fault::name_where, crate::specs::Reading::seen_as, crate::specs::Reading::and_with))]
pub fn import_name_from(
    alloc: Global,
    number: u32,
    count: u32,
    bytes: &[u8],
) -> Result<(Name, &[u8]), AuxFault>
    ensures { ReadingGives (λ x. (x.0, x.1.now)) result
        (name_where (fits_import count) number bytes.now) }
{
    let (length, rest) = import_length_from(number, count, bytes)?;
    let (name, rest) = padded_from(alloc, number, length as usize, rest)?;
    Ok((name, rest))
}
