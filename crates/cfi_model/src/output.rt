ghost use Rattle.std.specs.Prelude.{◌≡◌, ◌<◌, ◌≤◌, ◌++◌, ◌∷◌, [], List, length, IfOk};
ghost use Rattle.cfi_word.specs.declared.limits.TheConstants.{MAX_OUTPUT};

use cfi_word::limits::MAX_OUTPUT;
use std::alloc::{AllocError, Global};
use std::marker::Model;

/// What a guest has put, at most `MAX_OUTPUT` bytes, for which room was reserved.
#[derive(Debug, Drop)]
pub struct Output {
    bytes: Vec<u8>,
}

impl Model for Output {
    ghost use Rattle.std.specs.Prelude.{ℕ, ◌≤◌, List, vec_len, vec_capacity};
    ghost use Rattle.cfi_word.specs.declared.limits.TheConstants.{MAX_OUTPUT};

    ghost Value = { List ℕ };

    ghost view = { λ output. output.bytes.items };

    ghost invariant = { λ output. (vec_len output.bytes ≤ MAX_OUTPUT)
        × (MAX_OUTPUT ≤ vec_capacity output.bytes) };
}

impl Output {
    /// Nothing yet, with room for all.
    pub fn new(alloc: Global) -> Result<Output, AllocError>
        ensures { IfOk result (λ output. output ≡ []) }
    {
        let bytes = Vec::with_capacity(alloc, MAX_OUTPUT)?;
        Ok(Output { bytes })
    }

    /// How many bytes were put, at most `MAX_OUTPUT`.
    pub fn len(&self) -> usize
        ensures { result ≡ length self.now }
    {
        self.bytes.len()
    }

    /// Appends a byte, for which there must be room.
    pub fn push(&mut self, byte: u8)
        requires { length self.old < MAX_OUTPUT }
        ensures { self.new ≡ self.old ++ byte ∷ [] }
    {
        self.bytes.push_reserved(byte);
    }

    /// What was put.
    pub fn as_slice(&self) -> &[u8]
        ensures { result.now ≡ self.now }
    {
        self.bytes.as_slice()
    }
}
