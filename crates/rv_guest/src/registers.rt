ghost use Rattle.std.specs.Prelude.{◌≡◌, ◌<◌};
ghost use Rattle.cfi_model.specs.Registers.{blank, held, with_held};

use std::marker::Model;

/// The registers x0 to x31; x0 is 0.
#[derive(Debug, Drop)]
pub struct Registers {
    words: [u32; 32],
}

impl Model for Registers {
    ghost use Rattle.cfi_model.specs.Registers.{RegFile, file_of};

    ghost Value = { RegFile };

    ghost view = { λ r. file_of r.words };
}

impl Registers {
    /// Registers that hold 0.
    #[tactic(auto, unfolding(cfi_model::specs::Registers::free_of))]
    pub fn new() -> Registers
        ensures { result ≡ blank }
    {
        Registers { words: [0; 32] }
    }

    /// What a register holds.
    #[inline(always)]
    #[tactic(auto, using(crate::proofs::RegisterLemmas::read_held))]
    pub fn read(&self, k: u32) -> u32
        requires { k < 32 }
        ensures { result ≡ held self.now k }
    {
        self.words[k as usize]
    }

    /// Writes a register; x0 stays 0.
    #[inline(always)]
    #[tactic(auto, using(crate::proofs::RegisterLemmas::write_held))]
    pub fn write(&mut self, k: u32, value: u32)
        requires { k < 32 }
        ensures { self.new ≡ with_held self.old k value }
    {
        if k != 0 {
            self.words[k as usize] = value;
        }
    }
}
