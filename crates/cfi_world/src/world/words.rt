// The words that guests find.

ghost use Rattle.std.specs.Prelude.{◌≡◌};
ghost use Rattle.cfi_model.specs.InForce.{tary_index};
ghost use Rattle.cfi_model.specs.Words.{word_at};
ghost use Rattle.cfi_word.specs.Table.{Bary, Code, Tary};

use crate::seat::tary;
use crate::world::World;

impl World {
    /// The code word of a number, 0 past the code's end.
    pub fn code(&self, index: u32) -> u32
        ensures { result ≡ word_at self.now.tables (Code index) }
    {
        self.tables.code(index)
    }

    /// The Bary word of a slot.
    pub fn bary(&self, slot: u32) -> u64
        ensures { result ≡ word_at self.now.tables (Bary slot) }
    {
        self.tables.bary(slot)
    }

    /// The Tary word of an address: one past the code is that of code word 0.
    pub fn tary(&self, at: u32) -> u64
        ensures { let t = self.now.tables in result
            ≡ word_at t (Tary (tary_index t.code_words at)) }
    {
        tary(&self.tables, at)
    }
}
