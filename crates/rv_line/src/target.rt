//! Where a jump or a branch leads, and what a word holds.

ghost use Rattle.std.specs.Prelude.{◌≡◌, IfOk};
ghost use Rattle.rv_line.specs.Target.{target_in, datum_in};

use crate::number::integer_of;
use crate::operand::Operand;
use crate::statement::{Datum, Target};
use cfi_text::{name_of, read_small_dec};
use std::alloc::{AllocError, Global};

impl Operand for Target {
    ghost read = { target_in };

    #[tactic(auto, unfolding(crate::specs::Target::target_in))]
    fn of_word(alloc: Global, word: &[u8]) -> Result<Option<Target>, AllocError> {
        if word.starts_with(b".+".as_slice()) {
            return Ok(read_small_dec(&word[2..]).map(|n| Target::Offset(i64::from(n))));
        }
        if word.starts_with(b".-".as_slice()) {
            return Ok(read_small_dec(&word[2..]).map(|n| Target::Offset(-i64::from(n))));
        }
        Ok(name_of(alloc, word)?.map(Target::Name))
    }
}

impl Operand for Datum {
    ghost read = { datum_in };

    #[tactic(auto, unfolding(crate::specs::Target::datum_in))]
    fn of_word(alloc: Global, word: &[u8]) -> Result<Option<Datum>, AllocError> {
        if let Some(number) = integer_of(word) {
            return Ok(Some(Datum::Number(number)));
        }
        Ok(name_of(alloc, word)?.map(Datum::Name))
    }
}
