//! Marks of names: most names are told apart by theirs.

ghost use Rattle.std.specs.Prelude.{◌≡◌, ◌<◌, ℕ, List, IsTrue};
ghost use Rattle.cfi_graph.specs.declared.marks.TheConstants.{MARKS};
ghost use Rattle.cfi_graph.specs.inner.Marks.{mark_of, has_mark};

use std::alloc::{AllocError, Global};
use std::marker::Model;

/// How many marks there are.
pub(crate) const MARKS: usize = 256;

/// By how much each byte of a name counts more than the next one.
pub(crate) const BYTE_WEIGHT: usize = 31;

/// Some of the marks.
#[derive(Drop)]
pub(crate) struct Marks {
    set: Vec<bool>,
}

// Clauses see by mark whether it is one of these.
impl Model for Marks {
    ghost use Rattle.std.specs.Prelude.{◌≡◌, Bool, List, vec_len};
    ghost use Rattle.cfi_graph.specs.declared.marks.TheConstants.{MARKS};

    ghost Value = { List Bool };

    ghost view = { λ marks. marks.set.items };

    ghost invariant = { λ marks. vec_len marks.set ≡ MARKS };
}

// The mark of a name, by all its bytes.
fn mark(name: &str) -> usize
    ensures value { result ≡ mark_of name.now }
    ensures low { result < MARKS }
{
    let mut mark = 0usize;
    for byte in name.as_bytes() {
        mark = (BYTE_WEIGHT * mark + *byte as usize) % MARKS;
    }
    mark
}

impl Marks {
    // None of the marks.
    pub(crate) fn new(alloc: Global) -> Result<Marks, AllocError> {
        Ok(Marks {
            set: vec![in alloc; false; MARKS]?,
        })
    }

    // Adds the mark of a name.
    pub(crate) fn add(&mut self, name: &str)
        ensures kept { (other : List ℕ) → IsTrue (has_mark self.old other)
            → IsTrue (has_mark self.new other) }
        ensures has { IsTrue (has_mark self.new name.now) }
    {
        self.set[mark(name)] = true;
    }

    /// Whether the mark of the name is one of these.
    pub(crate) fn has(&self, name: &str) -> bool
        ensures { result ≡ has_mark self.now name.now }
    {
        self.set[mark(name)]
    }
}
