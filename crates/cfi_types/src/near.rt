//! Which of several tables may have a type that one more table has.

ghost use Rattle.std.specs.Prelude.{◌≡◌, ℕ, ◌+◌, ◌<◌, ◌≤◌, ◌^◌, length, map, slice_index, IfOk, IsTrue, All};
ghost use Rattle.std.specs.List.{flat_map, AllByRecursion};
ghost use Rattle.std.specs.BTreeSet.{contains};
ghost use Rattle.std.specs.Ordering.{nat_cmp};
ghost use Rattle.cfi_type_table.specs.Spelling.{AreTypes};
ghost use Rattle.cfi_types.specs.Classes.{AreClasses};
ghost use Rattle.cfi_types.specs.inner.Depth.{digests_to};
ghost use Rattle.cfi_types.specs.inner.Digest.{digest_of};
ghost use Rattle.cfi_types.specs.inner.Splitting.{signature};
ghost use Rattle.cfi_types.specs.inner.Extending.{AreNear, IsNew, next_after};

use crate::classes::Classes;
use crate::digest::digest;
use crate::linked::{Lent, Linked};
use std::alloc::{AllocError, Global};
use std::collections::BTreeSet;

/// To which depth nodes are told apart by their digests.
pub(crate) const DEPTH: u32 = 4;

// The digests of a table's nodes to one depth more.
fn deeper(alloc: Global, table: &Lent, digests: &[u32]) -> Result<Vec<u32>, AllocError>
    requires types { AreTypes table.now }
    requires len { length digests.now ≡ length table.now }
    ensures { IfOk result (λ deeper. deeper.items ≡
        map (λ x. digest_of (signature digests.now x)) table.now) }
{
    let mut deeper = Vec::with_capacity(alloc, digests.len())?;
    for node in table.nodes() {
        deeper.push(digest(&Linked::new(node, 0), digests))?;
    }
    Ok(deeper)
}

// The digests of a table's nodes.
fn digests(alloc: Global, table: &Lent) -> Result<Vec<u32>, AllocError>
    requires types { AreTypes table.now }
    ensures { IfOk result (λ digests. digests.items ≡ digests_to DEPTH table.now) }
{
    let mut digests = vec![in alloc; 0; table.nodes().len()]?;
    for _ in 0..DEPTH {
        digests = deeper(alloc, table, digests.as_slice())?;
    }
    Ok(digests)
}

// The digests that a table's nodes have.
fn told(alloc: Global, table: &Lent) -> Result<BTreeSet<u32>, AllocError>
    requires types { AreTypes table.now }
    ensures { IfOk result (λ told.
        All (λ digest. IsTrue (contains nat_cmp told digest)) (digests_to DEPTH table.now)) }
{
    let digests = digests(alloc, table)?;
    let mut told = BTreeSet::new(alloc);
    for digest in digests.iter() {
        told.insert(*digest)?;
    }
    Ok(told)
}

// Whether some number of a row is `next` or more.
fn brings(row: &[u32], next: u32) -> bool
    ensures { (a : ℕ) → a < length row.now → next ≤ slice_index row.now a → IsTrue result }
{
    for a in 0..row.len() {
        if row[a] >= next {
            return true;
        }
    }
    false
}

// Whether a node of a table has a number from `next` on, and its digest is told.
fn is_near(row: &[u32], digests: &[u32], next: u32, told: &BTreeSet<u32>) -> bool
    requires { length digests.now ≡ length row.now }
    ensures { (a : ℕ)
        → IsNew (λ digest. IsTrue (contains nat_cmp told.now digest)) next row.now digests.now a
        → IsTrue result }
{
    for a in 0..row.len() {
        if row[a] >= next && told.contains(&digests[a]) {
            return true;
        }
    }
    false
}

// Whether a table that has this row has such a node. Its digests are made only where it brings a number.
fn has_near(
    alloc: Global,
    table: &Lent,
    row: &[u32],
    next: u32,
    told: &BTreeSet<u32>,
) -> Result<bool, AllocError>
    requires types { AreTypes table.now }
    requires len { length row.now ≡ length table.now }
    ensures { IfOk result (λ near. (a : ℕ) →
        IsNew (λ digest. IsTrue (contains nat_cmp told.now digest)) next row.now (digests_to DEPTH table.now) a
        → IsTrue near) }
{
    if !brings(row, next) {
        return Ok(false);
    }
    let digests = digests(alloc, table)?;
    Ok(is_near(row, digests.as_slice(), next, told))
}

// The next number after those of a row, where it was this before them.
fn next_after(next: u32, row: &[u32]) -> u32
    requires { All (λ number. number + 1 < 2 ^ 32) row.now }
    ensures { result ≡ next_after next row.now }
{
    let mut next = next;
    for number in row {
        next = next.max(number + 1);
    }
    next
}

/// Those of several tables that may have a type of one more table, with their numbers; and the next number after those
/// of all types.
#[derive(Drop)]
pub(crate) struct Near<'a> {
    pub(crate) tables: Vec<Lent<'a>>,
    pub(crate) numbers: Vec<usize>,
    pub(crate) next: u32,
}

// Which tables may have a type of this one: a type that comes with one of them has the digest of a type of this one.
pub(crate) fn near_tables<'a>(
    alloc: Global,
    tables: &[Lent<'a>],
    kept: &Classes,
    table: &Lent,
) -> Result<Near<'a>, AllocError>
    requires fits { length (flat_map (λ xs. xs) tables.now) < 2 ^ 32 }
    requires types { AllByRecursion AreTypes tables.now }
    requires more { AreTypes table.now }
    requires kept { AreClasses tables.now kept.now }
    ensures near { IfOk result (λ near. AreNear tables.now kept.now (digests_to DEPTH table.now)
        near.numbers.items near.tables.items) }
    ensures next { IfOk result (λ near. near.next ≡ next_after 0 (flat_map (λ row. row) kept.now)) }
{
    let told = told(alloc, table)?;
    let mut near = Near {
        tables: Vec::new(alloc),
        numbers: Vec::new(alloc),
        next: 0,
    };
    for (number, other) in tables.iter().enumerate() {
        let row = kept.row(number);
        if has_near(alloc, other, row, near.next, &told)? {
            near.tables.push(other.again())?;
            near.numbers.push(number)?;
        }
        near.next = next_after(near.next, row);
    }
    Ok(near)
}
