//! IDs, packed words, the places of words in tables, and lists.

use cfi_values::Numbers;
use cfi_word::{BadSize, Edge, FIELD_MAX, Image, Labels, Layout, Word, class_of, id, version_of};
use std::alloc::{AllocError, Global};

// Whether the ID of a class and a version is this word, of which both are read back.
fn is_id(class: u32, version: u32, word: u32) -> bool {
    class <= FIELD_MAX
        && version <= FIELD_MAX
        && id(class, version) == word
        && class_of(word) == class
        && version_of(word) == version
}

/// MCFI's layout of an ID, by hand: class and version, seven bits a byte, lowest bits 0, 0, 0, 1.
pub fn ids() -> bool {
    is_id(1, 0, 0x00020001)
        && is_id(130, 129, 0x02040203)
        && is_id(16383, 16383, 0xfefefeff)
        && is_id(16383, 0, 0xfefe0001)
}

/// Epoch 5 under three versions has version 2.
pub fn packed_words() -> bool {
    let word = Word::pack(5, 7, 130, 3);
    word == 0x00000507_02040005
        && Word::id_of(word) == 0x02040005
        && Word::policy_of(word) == 7
        && Word::epoch_of(word) == 5
        && Word::epoch_of(u64::MAX) == 16777215
}

fn largest() -> bool {
    let layout = Layout::new(65536).unwrap();
    layout.code_words() == 65536
        && layout.slots() == 4682
        && layout.words() == 135771
        && layout.quiet(15) == 16
}

fn smallest() -> bool {
    let layout = Layout::new(1024).unwrap();
    layout.code_words() == 1024
        && layout.code(16) == 33
        && layout.tary(16) == 1057
        && layout.slots() == 74
        && layout.bary(73) == 2138
        && layout.words() == 2139
}

/// The largest and the smallest tables, and a size that no table has.
pub fn layouts(alloc: Global) -> Result<bool, AllocError> {
    let text = format!(in alloc; "{}", BadSize(1000))?;
    Ok(
        largest()
            && smallest()
            && Layout::new(1000).err() == Some(BadSize(1000))
            && text.as_str() == "1000 code words are no size of a table",
    )
}

/// What lists are made of, they have; edges are in the order of their branches.
pub fn lists(alloc: Global) -> Result<bool, AllocError> {
    let labels = Labels {
        tary: Numbers::from_vec(vec![in alloc; 0, 1]?),
        bary: Numbers::from_vec(vec![in alloc; 1]?),
    };
    let image = Image {
        tary: labels.tary,
        bary: labels.bary,
        code: Numbers::from_vec(vec![in alloc; 0x13]?),
    };
    let lower = Edge {
        branch: 0,
        target: 64,
    };
    let higher = Edge {
        branch: 1,
        target: 4,
    };
    Ok(
        image.tary.as_slice() == [0, 1].as_slice()
            && image.code.into_vec().as_slice() == [0x13].as_slice()
            && lower < higher,
    )
}
