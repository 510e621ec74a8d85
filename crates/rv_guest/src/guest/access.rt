// Loads and stores, and the end of a table load.

ghost use Rattle.std.specs.Prelude.{◌≡◌, ◌+◌, ◌<◌, ◌^◌, false};
ghost use Rattle.rv_insn.specs.declared.opcode.TheConstants as opcodes;
ghost use Rattle.rv_insn.specs.InsnOf.{row_of};
ghost use Rattle.cfi_model.specs.Begin.{begin_by, act_by, load_at, load_act, store_at, store_act, area_of, units_of};
ghost use Rattle.cfi_model.specs.Begin.{load_private, Private, TaryId, store_private, stopped, is_in_range};
ghost use Rattle.cfi_model.specs.Run.{finish_of};
ghost use Rattle.cfi_word.specs.declared.map.TheConstants.{DATA_START, DATA_BYTES, TARY, CODE_BYTES};
ghost use Rattle.rv_guest.specs.Guest.{MayLoad};

use crate::guest::Guest;
use crate::guest::compute::is_one_own;
use cfi_model::{Act, Wait, load_width, store_width};
use cfi_unit::Stop;
use cfi_word::Word;
use cfi_word::map::{BARY, CODE_BYTES, DATA_BYTES, DATA_START, TARY};
use cfi_word::sizes::SLOTS;
use rv_insn::fields::{fields_of, imm_i, imm_s};
use rv_insn::rows::{load_of, store_of};
use rv_insn::{LoadKind, StoreKind};

impl Guest {
    #[inline(always)]
    pub(crate) fn load(&mut self, word: u32) -> Act
        requires { self.old.base.steps + 1 < 2 ^ 32 }
        ensures state { self.new ≡ begin_by (row_of opcodes.LOAD word) self.old }
        ensures act { result ≡ act_by (row_of opcodes.LOAD word) self.old }
    {
        let f = fields_of(word);
        let address = self.regs.read(f.rs1).wrapping_add(imm_i(word));
        // The row is looked up where it is needed: a table is loaded by one kind alone.
        if DATA_START <= address && address < DATA_START + DATA_BYTES {
            let Some(kind) = load_of(f.funct3) else {
                return Act::Done;
            };
            return self.load_data(kind, f.rd, address - DATA_START);
        }
        let Some(kind) = load_of(f.funct3) else {
            return Act::Done;
        };
        self.load_outside(kind, f.rd, address, is_one_own(f.rd, f.rs1))
    }

    // Loads from an address outside private data.
    #[inline(always)]
    fn load_outside(&mut self, kind: LoadKind, rd: u32, address: u32, reserved: bool) -> Act
        requires steps { self.old.base.steps + 1 < 2 ^ 32 }
        requires rd { rd < 32 }
        requires apart { is_in_range DATA_START DATA_BYTES address ≡ false }
        ensures state { self.new ≡ load_at (area_of address) kind rd (units_of reserved) self.old }
        ensures act { result ≡ load_act (area_of address) kind }
    {
        match kind {
            LoadKind::Lw => self.load_table(rd, address, reserved),
            _ => Act::Done,
        }
    }

    #[inline(always)]
    fn load_data(&mut self, kind: LoadKind, rd: u32, offset: u32) -> Act
        requires steps { self.old.base.steps + 1 < 2 ^ 32 }
        requires rd { rd < 32 }
        requires within { offset < DATA_BYTES }
        ensures state { self.new ≡ load_private kind rd offset self.old }
        ensures act { result ≡ load_act (Private offset) kind }
    {
        if offset % load_width(kind) != 0 {
            return self.misalign(offset);
        }
        let value = self.memory.load(kind, offset);
        self.regs.write(rd, value);
        self.go_to(self.pc.wrapping_add(4), false);
        Act::Done
    }

    // Loads a word from there.
    #[inline(always)]
    fn load_table(&mut self, rd: u32, address: u32, reserved: bool) -> Act
        requires steps { self.old.base.steps + 1 < 2 ^ 32 }
        requires rd { rd < 32 }
        requires apart { is_in_range DATA_START DATA_BYTES address ≡ false }
        ensures state { self.new
            ≡ load_at (area_of address) LoadKind.Lw rd (units_of reserved) self.old }
        ensures act { result ≡ load_act (area_of address) LoadKind.Lw }
    {
        if TARY <= address && address < TARY + CODE_BYTES {
            return self.load_tary(rd, address - TARY, reserved);
        }
        if BARY <= address && address < BARY + 4 * SLOTS && address % 4 == 0 {
            let slot = (address - BARY) / 4;
            self.go_to(self.pc.wrapping_add(4), reserved);
            self.waits = Some(Wait::Bary { slot, rd });
            return Act::Need(address);
        }
        Act::Done
    }

    #[inline(always)]
    fn load_tary(&mut self, rd: u32, at: u32, reserved: bool) -> Act
        requires steps { self.old.base.steps + 1 < 2 ^ 32 }
        requires rd { rd < 32 }
        requires within { at < CODE_BYTES }
        ensures state { self.new ≡ load_at (TaryId at) LoadKind.Lw rd (units_of reserved) self.old }
        ensures act { result ≡ load_act (TaryId at) LoadKind.Lw }
    {
        if at % 4 != 0 {
            self.halt(Stop::Halt(at));
            return Act::Halt(at);
        }
        self.go_to(self.pc.wrapping_add(4), reserved);
        self.waits = Some(Wait::Tary { at, rd });
        Act::Need(TARY + at)
    }

    // Stops the guest in an instruction.
    #[inline(always)]
    fn halt(&mut self, stop: Stop)
        requires { self.old.base.steps + 1 < 2 ^ 32 }
        ensures { self.new ≡ stopped stop self.old }
    {
        self.steps += 1;
        self.stop = Some(stop);
    }

    // Stops the guest at an offset in private data.
    #[inline(always)]
    fn misalign(&mut self, offset: u32) -> Act
        requires steps { self.old.base.steps + 1 < 2 ^ 32 }
        requires within { offset < DATA_BYTES }
        ensures state { self.new ≡ stopped (Stop.Align (DATA_START + offset)) self.old }
        ensures act { result ≡ Act.Align (DATA_START + offset) }
    {
        self.halt(Stop::Align(DATA_START + offset));
        Act::Align(DATA_START + offset)
    }

    #[inline(always)]
    pub(crate) fn store(&mut self, word: u32) -> Act
        requires { self.old.base.steps + 1 < 2 ^ 32 }
        ensures state { self.new ≡ begin_by (row_of opcodes.STORE word) self.old }
        ensures act { result ≡ act_by (row_of opcodes.STORE word) self.old }
    {
        let f = fields_of(word);
        let Some(kind) = store_of(f.funct3) else {
            return Act::Done;
        };
        let address = self.regs.read(f.rs1).wrapping_add(imm_s(word));
        let value = self.regs.read(f.rs2);
        self.store_to(kind, address, value)
    }

    // Stores to an address of private data.
    #[inline(always)]
    fn store_to(&mut self, kind: StoreKind, address: u32, value: u32) -> Act
        requires { self.old.base.steps + 1 < 2 ^ 32 }
        ensures state { self.new ≡ store_at (area_of address) kind value self.old }
        ensures act { result ≡ store_act (area_of address) kind }
    {
        if DATA_START <= address && address < DATA_START + DATA_BYTES {
            return self.store_data(kind, address - DATA_START, value);
        }
        Act::Done
    }

    #[inline(always)]
    fn store_data(&mut self, kind: StoreKind, offset: u32, value: u32) -> Act
        requires steps { self.old.base.steps + 1 < 2 ^ 32 }
        requires within { offset < DATA_BYTES }
        ensures state { self.new ≡ store_private kind offset value self.old }
        ensures act { result ≡ store_act (Private offset) kind }
    {
        if offset % store_width(kind) != 0 {
            return self.misalign(offset);
        }
        self.memory.store(kind, offset, value);
        self.go_to(self.pc.wrapping_add(4), false);
        Act::Done
    }

    /// Ends a table load with the whole word that was loaded: the register gets its ID.
    ///
    /// The policy of a Tary word is not below the last one that is logged. A guest that waits for no word stays as it
    /// is.
    #[inline(always)]
    pub fn finish(&mut self, loaded: u64)
        requires { MayLoad self.old.waits self.old.base.log loaded }
        ensures { self.new ≡ finish_of self.old loaded }
    {
        match self.waits {
            Some(Wait::Tary { rd, .. }) => {
                self.regs.write(rd, Word::id_of(loaded));
                self.tary = Some(loaded);
                self.waits = None;
            }
            Some(Wait::Bary { rd, .. }) => {
                self.regs.write(rd, Word::id_of(loaded));
                self.bary = Some(loaded);
                self.waits = None;
            }
            _ => {}
        }
    }
}
