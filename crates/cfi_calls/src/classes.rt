//! Classes of slots and code words, and which a chain of edges joins.

ghost use Rattle.std.specs.Prelude.{◌≡◌, ◌≤◌, All, length, IfOk};
ghost use Rattle.cfi_class.specs.Labels.{IsEdgeWithin};

use cfi_class::{Kept, are_joined, label};
use cfi_word::{Edge, Labels, Layout};
use std::alloc::{AllocError, Global};

// Those edges of these slots and addresses that lie within a table of 1,024 code words.
fn edges_of(alloc: Global, pairs: &[(u32, u32)], slots: u32) -> Result<Vec<Edge>, AllocError>
    ensures { IfOk result (λ edges. All (IsEdgeWithin slots 1024) edges.items) }
{
    let mut edges = Vec::new(alloc);
    for (branch, target) in pairs {
        if *branch < slots && *target % 4 == 0 && *target < 4096 {
            edges.push(Edge {
                branch: *branch,
                target: *target,
            })?;
        }
    }
    Ok(edges)
}

// So many numbers, these at their places and another one elsewhere.
fn numbers_of(
    alloc: Global,
    count: usize,
    other: u32,
    numbers: &[(usize, u32)],
) -> Result<Vec<u32>, AllocError> {
    let mut all = vec![in alloc; other; count]?;
    for (place, number) in numbers {
        if let Some(at) = all.get_mut(*place) {
            *at = *number;
        }
    }
    Ok(all)
}

// Whether labels of a table of 1,024 code words have these classes of slots and of code words, and no others.
fn has_classes(
    alloc: Global,
    labels: &Labels,
    bary: &[(usize, u32)],
    tary: &[(usize, u32)],
) -> Result<bool, AllocError> {
    let words = numbers_of(alloc, 1024, 0, tary)?;
    let branches = numbers_of(alloc, 74, 16383, bary)?;
    Ok(labels.tary.as_slice() == words.as_slice() && labels.bary.as_slice() == branches.as_slice())
}

// An indirect call of two functions, and the returns of both: slots 1 and 2 share the address 0x80.
const CALLS: [(u32, u32); 6] = [
    (0, 0x84),
    (0, 0xbc),
    (1, 0x44),
    (1, 0x80),
    (2, 0x48),
    (2, 0x80),
];

// Whether edges by slot and address, all within the table, under so many slots have these classes of slots and of code
// words, by hand.
fn are_labels(
    alloc: Global,
    pairs: &[(u32, u32)],
    slots: u32,
    bary: &[(usize, u32)],
    tary: &[(usize, u32)],
) -> Result<bool, AllocError> {
    let layout = Layout::new(1024).unwrap();
    if slots > 74 {
        return Ok(false);
    }
    let edges = edges_of(alloc, pairs, slots)?;
    let labels = label(alloc, &edges, slots, &layout)?;
    Ok(edges.len() == pairs.len() && has_classes(alloc, &labels, bary, tary)?)
}

// No edge, one, a class of two slots, and two classes.
fn few_labels(alloc: Global) -> Result<bool, AllocError> {
    let pairs = [(0, 0x40), (1, 0x44), (1, 0x40)];
    let bary = [(0, 1), (1, 2), (2, 2)];
    let tary = [(33, 1), (47, 1), (17, 2), (18, 2), (32, 2)];
    Ok(
        are_labels(alloc, &[], 1, &[], &[])?
            && are_labels(alloc, &[(0, 0x44)], 1, &[(0, 1)], &[(17, 1)])?
            && are_labels(alloc, &pairs, 3, &[(0, 1), (1, 1)], &[(16, 1), (17, 1)])?
            && are_labels(alloc, &CALLS, 3, &bary, &tary)?,
    )
}

// One chain through all, from its far end.
fn chain_labels(alloc: Global) -> Result<bool, AllocError> {
    let pairs = [(3, 0x40), (2, 0x40), (2, 0xffc), (1, 0xffc), (1, 0), (0, 0)];
    let bary = [(0, 1), (1, 1), (2, 1), (3, 1)];
    are_labels(alloc, &pairs, 4, &bary, &[(0, 1), (16, 1), (1023, 1)])
}

// Classes are numbered by their least slots, whatever the order of edges and addresses.
fn ordered_labels(alloc: Global) -> Result<bool, AllocError> {
    let pairs = [(73, 0x40), (2, 0x44), (73, 0x40), (1, 0x48)];
    let bary = [(1, 1), (2, 2), (73, 3)];
    are_labels(alloc, &pairs, 74, &bary, &[(18, 1), (17, 2), (16, 3)])
}

/// The classes of slots and of code words.
pub fn labels(alloc: Global) -> Result<bool, AllocError> {
    Ok(few_labels(alloc)? && chain_labels(alloc)? && ordered_labels(alloc)?)
}

// These labels and some further edges, by slot and address.
fn with_edges(
    alloc: Global,
    kept: &Kept,
    pairs: &[(u32, u32)],
    slots: u32,
) -> Result<Kept, AllocError>
    requires size { length kept.now.tary ≡ 1024 }
    requires room { slots ≤ 74 }
    ensures { IfOk result (λ labels. length labels.tary ≡ 1024) }
{
    let edges = edges_of(alloc, pairs, slots)?;
    kept.joined(alloc, &edges, slots)
}

// Two classes.
fn two_classes(alloc: Global) -> Result<Kept, AllocError>
    ensures { IfOk result (λ labels. length labels.tary ≡ 1024) }
{
    let layout = Layout::new(1024).unwrap();
    let edges = edges_of(alloc, &[(0, 0x40), (1, 0x44)], 2)?;
    Kept::of(alloc, &edges, 2, &layout)
}

// A slot that makes one of them, and another class.
fn joined_classes(alloc: Global) -> Result<Kept, AllocError>
    ensures { IfOk result (λ labels. length labels.tary ≡ 1024) }
{
    let kept = two_classes(alloc)?;
    with_edges(alloc, &kept, &[(2, 0x40), (2, 0x44), (3, 0x48)], 4)
}

// Whether the two classes are numbered in order.
fn are_two(alloc: Global) -> Result<bool, AllocError> {
    let kept = two_classes(alloc)?;
    has_classes(alloc, kept.labels(), &[(0, 1), (1, 2)], &[(16, 1), (17, 2)])
}

// Whether the joined class has the lesser number, and the other one the next after both.
fn are_joined_classes(alloc: Global) -> Result<bool, AllocError> {
    let kept = joined_classes(alloc)?;
    let bary = [(0, 1), (1, 1), (2, 1), (3, 3)];
    has_classes(alloc, kept.labels(), &bary, &[(16, 1), (17, 1), (18, 3)])
}

// Whether the next class has the number that the joined class has left.
fn is_number_taken_again(alloc: Global) -> Result<bool, AllocError> {
    let joined = joined_classes(alloc)?;
    let kept = with_edges(alloc, &joined, &[(4, 0x4c)], 5)?;
    let bary = [(0, 1), (1, 1), (2, 1), (3, 3), (4, 2)];
    has_classes(
        alloc,
        kept.labels(),
        &bary,
        &[(16, 1), (17, 1), (18, 3), (19, 2)],
    )
}

/// Labels that are kept while edges are added, by hand.
pub fn kept(alloc: Global) -> Result<bool, AllocError> {
    Ok(are_two(alloc)? && are_joined_classes(alloc)? && is_number_taken_again(alloc)?)
}

/// Whether a chain joins a slot and an address.
pub fn joined(alloc: Global) -> Result<bool, AllocError> {
    let rows = [
        (1, 0x48, true),
        (2, 0x44, true),
        (0, 0xbc, true),
        (1, 0x84, false),
        (0, 0x48, false),
        (3, 0x44, false),
        (1, 0x46, false),
        (1, 0x4c, false),
        (1, 0xfffffffc, false),
    ];
    let edges = edges_of(alloc, &CALLS, 3)?;
    let mut agree = edges.len() == CALLS.len();
    for (branch, target, is_joined) in rows {
        let answer = are_joined(alloc, &edges, 3, 1024, branch, target)?;
        agree = agree && answer == is_joined;
    }
    Ok(agree)
}
