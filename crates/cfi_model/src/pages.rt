//! Private data in pages, which are made as they are needed.

ghost use Rattle.std.specs.Prelude.{◌≡◌, ℕ, ◌+◌, ◌-◌, ◌<◌, ◌≤◌, ◌/◌, ◌%◌, true, IfOk, IsTrue, length, slice_set, slice_index_or, false};
ghost use Rattle.std.specs.List.{All, splice};
ghost use Rattle.cfi_word.specs.declared.map.TheConstants.{DATA_START, DATA_BYTES};
ghost use Rattle.cfi_model.specs.Data.{load_width, store_width, is_aligned, loaded, stored, LiesInData};
ghost use Rattle.cfi_model.specs.Pages.{Memory, blank_memory, memory_stored, memory_filled, touched_from, page_count};

use crate::data::{load_from, store_into, write_bytes};
use cfi_unit::Fill;
use cfi_word::map::{DATA_BYTES, DATA_START};
use rv_insn::{LoadKind, StoreKind};
use std::alloc::{AllocError, Global};
use std::marker::Model;

/// How many bytes a page of private data has.
pub const PAGE_BYTES: u32 = 4096;
/// How many pages private data has.
pub const PAGES: u32 = DATA_BYTES / PAGE_BYTES;

/// A guest's private data, `DATA_BYTES` bytes in pages; places are offsets from its first address.
///
/// A page is made by the first fill or store into it, in room that was reserved; one that is not made reads as zero.
#[derive(Debug, Drop)]
pub struct PrivateData {
    // The page of each place by its number in the pool.
    numbers: [u16; PAGES as usize],
    // The first page is of zeroes, and stands for all places that are not made: a load needs no test.
    pool: Vec<[u8; PAGE_BYTES as usize]>,
}

impl Model for PrivateData {
    ghost use Rattle.std.specs.Prelude.{vec_capacity};
    ghost use Rattle.cfi_model.specs.Pages.{Memory};
    ghost use Rattle.cfi_model.specs.inner.Paged.{memory_by, IsPaged};

    ghost Value = { Memory };

    ghost view = { λ d. memory_by d.numbers d.pool.items };

    ghost invariant = { λ d. IsPaged d.numbers d.pool.items (vec_capacity d.pool) };
}

impl PrivateData {
    /// Bytes of 0, and no page made. Room for all pages is reserved.
    pub fn new(alloc: Global) -> Result<PrivateData, AllocError>
        ensures { IfOk result (λ d. d ≡ blank_memory) }
    {
        let mut pool = Vec::with_capacity(alloc, 1 + PAGES as usize)?;
        pool.push_reserved([0; PAGE_BYTES as usize]);
        Ok(PrivateData {
            numbers: [0; PAGES as usize],
            pool,
        })
    }

    /// How many pages are made.
    pub fn pages(&self) -> u32
        ensures { result ≡ page_count self.now.made }
    {
        (self.pool.len() - 1) as u32
    }

    /// What a load of this kind gives at an offset that is a multiple of its width.
    #[inline(always)]
    #[tactic(auto, using(crate::proofs::PagedLemmas::load_fits, crate::proofs::PagedLemmas::loaded_paged))]
    pub fn load(&self, kind: LoadKind, offset: u32) -> u32
        requires within { offset < DATA_BYTES }
        requires aligned { IsTrue (is_aligned (load_width kind) offset) }
        ensures { result ≡ loaded kind self.now.bytes offset }
    {
        let number = self.numbers[(offset / PAGE_BYTES) as usize];
        let page = &self.pool[usize::from(number)];
        load_from(page, kind, (offset % PAGE_BYTES) as usize)
    }

    // Makes the page of an offset, where it is not made.
    #[inline(always)]
    fn touch(&mut self, offset: u32)
        requires { offset < DATA_BYTES }
        ensures bytes { self.new.bytes ≡ self.old.bytes }
        ensures made { self.new.made ≡ slice_set self.old.made (offset / PAGE_BYTES) true }
        ensures here { slice_index_or self.new.made (offset / PAGE_BYTES) false ≡ true }
        ensures size { length self.old.bytes ≡ DATA_BYTES }
    {
        let place = (offset / PAGE_BYTES) as usize;
        if self.numbers[place] == 0 {
            self.make(place);
        }
    }

    // Makes the page of a place that is not made.
    #[inline(never)]
    fn make(&mut self, place: usize)
        requires within { place < PAGES }
        requires unmade { slice_index_or self.old.made place false ≡ false }
        ensures bytes { self.new.bytes ≡ self.old.bytes }
        ensures made { self.new.made ≡ slice_set self.old.made place true }
    {
        self.numbers[place] = self.pool.len() as u16;
        self.pool.push_reserved([0; PAGE_BYTES as usize]);
    }

    /// Stores a value by this kind at an offset that is a multiple of its width, and makes the page there.
    #[inline(always)]
    pub fn store(&mut self, kind: StoreKind, offset: u32, value: u32)
        requires within { offset < DATA_BYTES }
        requires aligned { IsTrue (is_aligned (store_width kind) offset) }
        ensures { self.new ≡ memory_stored kind self.old offset value }
    {
        self.touch(offset);
        self.put(kind, offset, value);
    }

    // Stores into a page that is made.
    #[inline(always)]
    fn put(&mut self, kind: StoreKind, offset: u32, value: u32)
        requires within { offset < DATA_BYTES }
        requires aligned { IsTrue (is_aligned (store_width kind) offset) }
        requires made { slice_index_or self.old.made (offset / PAGE_BYTES) false ≡ true }
        ensures bytes { self.new.bytes ≡ stored kind self.old.bytes offset value }
        ensures made { self.new.made ≡ self.old.made }
    {
        let number = self.numbers[(offset / PAGE_BYTES) as usize];
        let page = &mut self.pool[usize::from(number)];
        store_into(page, kind, (offset % PAGE_BYTES) as usize, value);
    }

    // Writes bytes into the page of an offset, which is made.
    fn write_page(&mut self, offset: u32, bytes: &[u8])
        requires within { offset < DATA_BYTES }
        requires fits { offset % PAGE_BYTES + length bytes.now ≤ PAGE_BYTES }
        requires made { slice_index_or self.old.made (offset / PAGE_BYTES) false ≡ true }
        ensures bytes { self.new.bytes
            ≡ splice self.old.bytes offset (offset + length bytes.now) bytes.now }
        ensures made { self.new.made ≡ self.old.made }
    {
        let number = self.numbers[(offset / PAGE_BYTES) as usize];
        let page = &mut self.pool[usize::from(number)];
        write_bytes(page, (offset % PAGE_BYTES) as usize, bytes);
    }

    // Writes the bytes from an offset on: those of its page, then the others.
    fn write(&mut self, offset: u32, bytes: &[u8])
        requires { offset + length bytes.now ≤ DATA_BYTES }
        ensures bytes { self.new.bytes
            ≡ splice self.old.bytes offset (offset + length bytes.now) bytes.now }
        ensures made { self.new.made ≡ touched_from self.old.made offset (length bytes.now) }
    {
        if bytes.is_empty() {
            return;
        }
        let room = (PAGE_BYTES - offset % PAGE_BYTES) as usize;
        let (part, others) = bytes.split_at(room.min(bytes.len()));
        self.touch(offset);
        self.write_page(offset, part);
        self.write(offset + part.len() as u32, others);
    }

    /// Writes fills one after the other; each lies inside private data.
    pub fn fill(&mut self, fills: &[Fill])
        requires { All LiesInData fills.now }
        ensures { self.new ≡ memory_filled self.old fills.now }
    {
        for fill in fills {
            self.write(fill.at - DATA_START, fill.bytes.as_slice());
        }
    }
}
