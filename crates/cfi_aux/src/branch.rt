//! Records of branches.

ghost use Rattle.std.specs.Prelude.{◌≤◌};
ghost use Rattle.cfi_aux.specs.Reading.{ReadingGives, each};
ghost use Rattle.cfi_aux.specs.Fault.{place_at, import_at, body_at, branch_at};

use crate::fault::AuxFault;
use crate::format::{CALL, RETURN, SWITCH, TAIL};
use crate::name::import_name_from;
use crate::reading::RecordReader;
use crate::records::Kind;
use crate::word::{cell_from, kind_from, place_from, type_from, word_count_from};
use cfi_values::Items;
use cfi_word::limits::{MAX_BRANCHES, MAX_FUNCTIONS};
use std::alloc::Global;

fn places_from(
    alloc: Global,
    number: u32,
    count: u32,
    bytes: &[u8],
) -> Result<(Vec<u32>, &[u8]), AuxFault>
    ensures { ReadingGives (λ x. (x.0.items, x.1.now)) result
        (each (place_at number) 0 count bytes.now) }
{
    let mut places = Vec::new(alloc);
    let mut rest = bytes;
    for _i in 0..count {
        let (place, after) = place_from(number, rest)?;
        places.push(place)?;
        rest = after;
    }
    Ok((places, rest))
}

impl<'a> RecordReader<'a> {
    #[tactic(auto, unfolding(crate::specs::Fault::import_at, crate::specs::Reading::seen_as, crate::specs::Reading::and_also))]
    fn import_from<'b>(
        &self,
        number: u32,
        count: u32,
        bytes: &'b [u8],
    ) -> Result<(Kind, &'b [u8]), AuxFault>
        ensures { ReadingGives (λ x. (x.0, x.1.now)) result
            (import_at self.now.size number count bytes.now) }
    {
        let (cell, rest) = cell_from(self.size, number, bytes)?;
        let (name, rest) = import_name_from(self.alloc, number, count, rest)?;
        Ok((Kind::Import { name, cell }, rest))
    }

    #[tactic(auto, unfolding(crate::specs::Fault::body_at, crate::specs::Reading::seen_as))]
    fn body_from<'b>(
        &self,
        number: u32,
        kind: u32,
        count: u32,
        bytes: &'b [u8],
    ) -> Result<(Kind, &'b [u8]), AuxFault>
        ensures { let at = body_at self.now.version self.now.types.now self.now.size in
            ReadingGives (λ x. (x.0, x.1.now)) result (at number kind count bytes.now) }
    {
        match kind {
            CALL => {
                let (node, rest) = type_from(self.version, self.types, number, bytes)?;
                Ok((Kind::Call(node), rest))
            }
            TAIL => {
                let (node, rest) = type_from(self.version, self.types, number, bytes)?;
                Ok((Kind::Tail(node), rest))
            }
            RETURN => Ok((Kind::Return, bytes)),
            SWITCH => {
                let (places, rest) = places_from(self.alloc, number, count, bytes)?;
                Ok((Kind::Switch(Items::from_vec(places)), rest))
            }
            _ => self.import_from(number, count, bytes),
        }
    }

    #[tactic(auto, unfolding(crate::specs::Fault::branch_at, crate::specs::Reading::seen_as, crate::specs::Reading::and_with))]
    fn branch_from<'b>(&self, number: u32, bytes: &'b [u8]) -> Result<(Kind, &'b [u8]), AuxFault>
        ensures { ReadingGives (λ x. (x.0, x.1.now)) result
            (branch_at self.now.version self.now.types.now self.now.size number bytes.now) }
    {
        let (kind, rest) = kind_from(self.version, number, bytes)?;
        let (count, rest) = word_count_from(kind, number, rest)?;
        self.body_from(number, kind, count, rest)
    }

    /// The branches of the records from `first` on, `count` of them; the cells of imports are to lie within the data.
    pub fn branches_from<'b>(
        &self,
        first: u32,
        count: u32,
        bytes: &'b [u8],
    ) -> Result<(Vec<Kind>, &'b [u8]), AuxFault>
        requires functions { first ≤ MAX_FUNCTIONS }
        requires branches { count ≤ MAX_BRANCHES }
        ensures { let one = branch_at self.now.version self.now.types.now self.now.size in
            ReadingGives (λ x. (x.0.items, x.1.now)) result (each one first count bytes.now) }
    {
        let mut branches = Vec::new(self.alloc);
        let mut rest = bytes;
        for number in first..first + count {
            let (branch, after) = self.branch_from(number, rest)?;
            branches.push(branch)?;
            rest = after;
        }
        Ok((branches, rest))
    }
}
