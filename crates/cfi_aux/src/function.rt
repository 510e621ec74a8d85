//! Records of functions.

ghost use Rattle.cfi_aux.specs.Reading.{ReadingGives, each};
ghost use Rattle.cfi_aux.specs.Fault.{function_at};

use crate::fault::AuxFault;
use crate::name::name_from;
use crate::reading::RecordReader;
use crate::records::Function;
use crate::word::{flags_from, length_from, place_from, type_from};

impl<'a> RecordReader<'a> {
    #[tactic(auto, unfolding(crate::specs::Fault::function_at, crate::specs::Reading::seen_as, crate::specs::Reading::and_also))]
    fn function_from<'b>(
        &self,
        number: u32,
        bytes: &'b [u8],
    ) -> Result<(Function, &'b [u8]), AuxFault>
        ensures { ReadingGives (λ x. (x.0, x.1.now)) result
            (function_at self.now.version self.now.types.now number bytes.now) }
    {
        let (offset, rest) = place_from(number, bytes)?;
        let (length, rest) = length_from(number, rest)?;
        let (ty, rest) = type_from(self.version, self.types, number, rest)?;
        let (flags, rest) = flags_from(number, rest)?;
        let (name, rest) = name_from(self.alloc, number, rest)?;
        let function = Function {
            offset,
            length,
            ty,
            taken: flags == 1,
            name,
        };
        Ok((function, rest))
    }

    /// The functions of the records from 0 on, `count` of them.
    pub fn functions_from<'b>(
        &self,
        count: u32,
        bytes: &'b [u8],
    ) -> Result<(Vec<Function>, &'b [u8]), AuxFault>
        ensures { let one = function_at self.now.version self.now.types.now in
            ReadingGives (λ x. (x.0.items, x.1.now)) result (each one 0 count bytes.now) }
    {
        let mut functions = Vec::new(self.alloc);
        let mut rest = bytes;
        for number in 0..count {
            let (function, after) = self.function_from(number, rest)?;
            functions.push(function)?;
            rest = after;
        }
        Ok((functions, rest))
    }
}
