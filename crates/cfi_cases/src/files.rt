//! The files that a group of cases has so far.

use crate::entry::Piece;
use cfi_io::MemShelf;
use std::alloc::{AllocError, Global};

/// Files by name.
#[derive(Debug, Drop)]
pub struct Files {
    alloc: Global,
    pairs: Vec<(String, Vec<u8>)>,
}

impl Files {
    /// No files.
    pub fn new(alloc: Global) -> Self {
        Files {
            alloc,
            pairs: Vec::new(alloc),
        }
    }

    /// The bytes of the file of this name.
    pub fn file(&self, name: &str) -> Option<&[u8]> {
        let pair = self.pairs.iter().find(|pair| pair.0.as_str() == name)?;
        Some(pair.1.as_slice())
    }

    /// The bytes of the file of this name: all, or so many from a place on.
    pub fn copy(
        &self,
        name: &str,
        part: Option<(usize, usize)>,
    ) -> Result<Option<Vec<u8>>, AllocError> {
        match self.part(name, part) {
            Some(bytes) => Ok(Some(bytes.to_vec(self.alloc)?)),
            None => Ok(None),
        }
    }

    /// Puts the bytes under this name.
    pub fn put(&mut self, name: &str, bytes: Vec<u8>) -> Result<(), AllocError> {
        let place = self.pairs.iter().position(|pair| pair.0.as_str() == name);
        let pair = (name.to_string(self.alloc)?, bytes);
        match place.and_then(|at| self.pairs.get_mut(at)) {
            Some(old) => *old = pair,
            None => self.pairs.push(pair)?,
        }
        Ok(())
    }

    /// A shelf with these files, whose calls with these numbers fail.
    pub fn shelf(&self, fails: Vec<u32>) -> Result<MemShelf, AllocError> {
        let mut pairs = Vec::new(self.alloc);
        for pair in &self.pairs {
            pairs.push((pair.0.clone()?, pair.1.clone()?))?;
        }
        Ok(MemShelf::new(self.alloc, pairs, fails))
    }

    /// The bytes after these pieces, and `None` where a piece asks for bytes that are not there.
    pub fn bytes_over(&self, base: &[u8], pieces: &[Piece]) -> Result<Option<Vec<u8>>, AllocError> {
        let mut bytes = base.to_vec(self.alloc)?;
        for piece in pieces {
            if !self.add(&mut bytes, piece)? {
                return Ok(None);
            }
        }
        Ok(Some(bytes))
    }

    // The bytes of a file: all, or so many from a place on.
    fn part(&self, name: &str, part: Option<(usize, usize)>) -> Option<&[u8]> {
        let bytes = self.file(name)?;
        match part {
            Some((place, length)) => bytes.get(place..place.saturating_add(length)),
            None => Some(bytes),
        }
    }

    // Adds a piece, and says whether it fits.
    fn add(&self, bytes: &mut Vec<u8>, piece: &Piece) -> Result<bool, AllocError> {
        match piece {
            Piece::Bytes(more) => bytes.extend_from_slice(more)?,
            Piece::File(name, part) => {
                let Some(more) = self.part(name, *part) else {
                    return Ok(false);
                };
                bytes.extend_from_slice(more)?;
            }
            Piece::At(place, part) => return Ok(overwrite(bytes, *place, part)),
            Piece::Cut(length) => {
                if bytes.len() < *length {
                    return Ok(false);
                }
                bytes.truncate(*length);
            }
        }
        Ok(true)
    }
}

// Puts the part in place of what stands at this place, and says whether it fits.
fn overwrite(bytes: &mut [u8], place: usize, part: &[u8]) -> bool {
    for (at, byte) in part.iter().enumerate() {
        let Some(old) = bytes.get_mut(place.saturating_add(at)) else {
            return false;
        };
        *old = *byte;
    }
    true
}
