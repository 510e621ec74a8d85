// The words of the tables.

ghost use Rattle.std.specs.Prelude.{◌≡◌, ◌+◌, ◌<◌, ◌≤◌, length, slice_index, nat_lt, if◌then◌else◌};
ghost use Rattle.cfi_word.specs.Ids.{IsField};
ghost use Rattle.cfi_word.specs.Table.{Epoch, Code, Tary, Bary};
ghost use Rattle.cfi_word.specs.Word.{packed, policy_in};
ghost use Rattle.cfi_word.specs.declared.limits.TheConstants.{MAX_CODE_WORDS, MAX_POLICY};
ghost use Rattle.cfi_model.specs.Words.{entry_at, epoch_in_force, newest, before};
ghost use Rattle.cfi_model.specs.Words.{policy_in_force, word_at};

use crate::tables::Tables;
use cfi_word::{Image, Word};

// The number at a place of a list, 0 past its end.
#[inline(always)]
fn item_at(list: &[u32], place: u32) -> u32
    ensures { result ≡ slice_index list.now place }
{
    match list.get(place as usize) {
        Some(item) => *item,
        None => 0,
    }
}

impl Tables {
    // The number of the entry that the word of this rank is of.
    #[inline(always)]
    fn number(&self, rank: u64) -> usize
        ensures value { let t = self.now.tables in
            result ≡ (if nat_lt rank t.stored then newest t else before t) }
        ensures within { result < length self.now.tables.entries }
    {
        if rank < u64::from(self.stored) {
            self.policies.len() - 1
        } else {
            self.policies.len().saturating_sub(2)
        }
    }

    // The image of an entry.
    #[inline(always)]
    fn image(&self, number: usize) -> &Image
        requires { number < length self.now.tables.entries }
        ensures { result.now ≡ (entry_at self.now.tables number).image }
    {
        &self.images[self.policies[number] as usize]
    }

    // The code of an entry.
    pub(super) fn code_of(&self, number: usize) -> &[u32]
        requires { number < length self.now.tables.entries }
        ensures value { result.now ≡ (entry_at self.now.tables number).image.code }
        ensures most { length result.now ≤ MAX_CODE_WORDS }
    {
        let _ = &self.images;
        self.image(number).code.as_slice()
    }

    // The table word of an entry with this class.
    #[inline(always)]
    fn packed(&self, number: usize, class: u32) -> u64
        requires within { number < length self.now.tables.entries }
        requires class { IsField class }
        ensures { let t = self.now.tables in
            result ≡ packed (t.first + number) (entry_at t number).policy class t.versions }
    {
        Word::pack(
            self.first + number as u32,
            self.policies[number],
            class,
            self.versions,
        )
    }

    /// The word of a place of the code, 0 past its end.
    #[inline(always)]
    pub fn code(&self, index: u32) -> u32
        ensures { result ≡ word_at self.now.tables (Code index) }
    {
        let image = self.image(self.number(u64::from(index)));
        item_at(image.code.as_slice(), index)
    }

    /// The Tary word of a place of the code; its policy is not below the one in force.
    #[tactic(auto, using(crate::proofs::FieldLemmas::tary_class, crate::proofs::FieldLemmas::tary_rises))]
    pub fn tary(&self, index: u32) -> u64
        requires { index < self.now.tables.code_words }
        ensures word { result ≡ word_at self.now.tables (Tary index) }
        ensures rises { policy_in_force self.now.tables ≤ policy_in result }
    {
        let rank = u64::from(self.layout.code_words()) + u64::from(index);
        let number = self.number(rank);
        let class = item_at(self.image(number).tary.as_slice(), index);
        self.packed(number, class)
    }

    /// The Bary word of a slot.
    #[tactic(auto, using(crate::proofs::FieldLemmas::bary_class))]
    pub fn bary(&self, slot: u32) -> u64
        ensures { result ≡ word_at self.now.tables (Bary slot) }
    {
        let rank = 2 * u64::from(self.layout.code_words()) + 1 + u64::from(slot);
        let number = self.number(rank);
        let class = item_at(self.image(number).bary.as_slice(), slot);
        self.packed(number, class)
    }

    // The word EPOCH.
    fn word(&self) -> u64
        ensures { result ≡ word_at self.now.tables Epoch }
    {
        let number = self.number(2 * u64::from(self.layout.code_words()));
        self.packed(number, 0)
    }

    /// The epoch in force.
    pub fn epoch(&self) -> u32
        ensures { result ≡ epoch_in_force self.now.tables }
    {
        Word::epoch_of(self.word())
    }

    /// The policy in force.
    pub fn policy(&self) -> u32
        ensures value { result ≡ policy_in_force self.now.tables }
        ensures most { result ≤ MAX_POLICY }
    {
        Word::policy_of(self.word())
    }
}
