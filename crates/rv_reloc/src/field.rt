//! Words whose field gets a number.

ghost use Rattle.std.specs.Prelude.{◌≡◌};
ghost use Rattle.rv_reloc.specs.Field.{immediate, filled};

use crate::fault::RelocFault;
use crate::form::{fits, with_number};
use crate::table::{Field, Form};
use rv_insn::{decode, encode};

/// The word of an instruction with the number in its immediate.
///
/// `Range` where the number does not fit, else `Field` where the word is no instruction of the form.
pub fn immediate(form: Form, number: u32, word: u32) -> Result<u32, RelocFault>
    ensures { result ≡ immediate form number word }
{
    if !fits(form, number) {
        return Err(RelocFault::Range);
    }
    let insn = decode(word).ok_or(RelocFault::Field)?;
    let new = with_number(form, number, insn).ok_or(RelocFault::Field)?;
    Ok(encode(&new))
}

/// The word with the number in its field; the faults are those of `immediate`.
pub fn filled(field: Field, number: u32, word: u32) -> Result<u32, RelocFault>
    ensures { result ≡ filled field number word }
{
    match field {
        Field::Word => Ok(number),
        Field::Sum => Ok(word.wrapping_add(number)),
        Field::Difference => Ok(word.wrapping_sub(number)),
        Field::Immediate(form) => immediate(form, number, word),
    }
}
