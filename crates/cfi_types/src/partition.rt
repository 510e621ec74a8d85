//! Parts of nodes, and their division by lists of nodes.

ghost use Rattle.std.specs.Prelude.{◌≡◌, ℕ, ◌<◌, ◌^◌, List, length, map, slice_index, vec_len, All, IfOk, IfSome, OnOk};
ghost use Rattle.cfi_word.specs.declared.limits.TheConstants.{MAX_FIELDS};
ghost use Rattle.cfi_type_table.specs.Node.{Node};
ghost use Rattle.cfi_types.specs.inner.Splitting.{IsLow};
ghost use Rattle.cfi_types.specs.inner.Division.{IsPut, AreListed, AreClear, KeepTogether, TellEqual};
ghost use Rattle.cfi_types.specs.inner.Whole.{IsWhole, IsDivided};

use crate::lists::{Lists, row_after};
use crate::plan::Plan;
use cfi_word::limits::MAX_FIELDS;
use std::alloc::{AllocError, Global};
use std::mem;

/// Parts of nodes.
#[derive(Drop)]
pub(crate) struct Parts {
    // The part of each node.
    pub(crate) parts: Vec<u32>,
    // The nodes that have come to each part.
    pub(crate) members: Lists<u32>,
    // What is known of parts by their numbers.
    plan: Plan,
    // How many nodes are taken out of each part, 0 between divisions.
    counts: Vec<u32>,
    // The part to which the nodes come that a division takes out of each.
    targets: Vec<u32>,
    // The parts of which a division takes nodes, kept for their memory.
    touched: Vec<u32>,
    // The parts to which its nodes come, kept for their memory.
    ends: Vec<u32>,
}

// Counts the nodes by their parts. `touched` becomes the parts that have some.
fn count(
    counts: &mut Vec<u32>,
    touched: &mut Vec<u32>,
    parts: &[u32],
    nodes: &[u32],
) -> Result<(), AllocError>
    requires nodes { All (λ a. a < length parts.now) nodes.now }
    requires parts { All (λ k. k < vec_len counts.old) parts.now }
    ensures below { OnOk result (All (λ k. k < vec_len counts.old) touched.new.items) }
    ensures len { vec_len counts.new ≡ vec_len counts.old }
{
    touched.clear();
    for node in nodes {
        let part = parts[*node as usize];
        let before = counts[part as usize];
        if before == 0 {
            touched.push(part)?;
        }
        counts[part as usize] = before.saturating_add(1);
    }
    Ok(())
}

// Whether all nodes of each part are counted, so that none is divided.
fn are_whole(plan: &Plan, counts: &[u32], touched: &[u32]) -> bool
    requires plan { vec_len plan.now.sizes ≡ length counts.now }
    requires touched { All (λ k. k < length counts.now) touched.now }
{
    for part in touched {
        if plan.size(*part) != counts[*part as usize] {
            return false;
        }
    }
    true
}

// Leaves no node counted in these parts.
fn clear_counts(counts: &mut Vec<u32>, touched: &[u32])
    requires { All (λ k. k < vec_len counts.old) touched.now }
    ensures { vec_len counts.new ≡ vec_len counts.old }
{
    for part in touched {
        counts[*part as usize] = 0;
    }
}

// Finds out to which part the nodes come that are counted in each part.
fn aim(
    plan: &mut Plan,
    counts: &mut Vec<u32>,
    targets: &mut Vec<u32>,
    touched: &[u32],
) -> Result<(), AllocError>
    requires counts { vec_len counts.old ≡ vec_len targets.old }
    requires plan { vec_len plan.old.sizes ≡ vec_len targets.old }
    requires targets { All (λ k. k < vec_len targets.old) targets.old.items }
    requires touched { All (λ k. k < vec_len targets.old) touched.now }
    ensures counts { vec_len counts.new ≡ vec_len counts.old }
    ensures plan { vec_len plan.new.sizes ≡ vec_len plan.old.sizes }
    ensures targets { All (λ k. k < vec_len targets.old) targets.new.items }
    ensures len { vec_len targets.new ≡ vec_len targets.old }
{
    for part in touched {
        let count = mem::replace(&mut counts[*part as usize], 0);
        targets[*part as usize] = plan.divide(*part, count)?;
    }
    Ok(())
}

// `ends` becomes the part to which each of the nodes comes.
fn find_ends(
    ends: &mut Vec<u32>,
    parts: &[u32],
    targets: &[u32],
    nodes: &[u32],
) -> Result<(), AllocError>
    requires nodes { All (λ a. a < length parts.now) nodes.now }
    requires parts { All (λ k. k < length targets.now) parts.now }
    ensures { OnOk result (ends.new.items ≡
        map (λ a. slice_index targets.now (slice_index parts.now a)) nodes.now) }
{
    ends.clear();
    for node in nodes {
        ends.push(targets[parts[*node as usize] as usize])?;
    }
    Ok(())
}

// Puts the nodes where they come to.
fn put(
    ends: &mut Vec<u32>,
    parts: &mut Vec<u32>,
    members: &mut Lists<u32>,
    targets: &[u32],
    nodes: &[u32],
) -> Result<(), AllocError>
    requires nodes { All (λ a. a < vec_len parts.old) nodes.now }
    requires parts { All (λ k. k < length targets.now) parts.old.items }
    requires targets { All (λ k. k < vec_len parts.old) targets.now }
    requires listed { AreListed parts.old.items members.old }
    ensures put { OnOk result (IsPut parts.old.items targets.now nodes.now parts.new.items) }
    ensures listed { OnOk result (AreListed parts.new.items members.new) }
{
    find_ends(ends, parts.as_slice(), targets, nodes)?;
    for i in 0..nodes.len() {
        let (node, end) = (nodes[i], ends[i]);
        if parts[node as usize] != end {
            parts[node as usize] = end;
            members.add(end, node)?;
        }
    }
    Ok(())
}

// The nodes of each part.
fn members_of(alloc: Global, parts: &[u32]) -> Result<Lists<u32>, AllocError>
    requires fits { length parts.now < 2 ^ 32 }
    requires low { IsLow parts.now }
    ensures { IfOk result (λ members. AreListed parts.now members) }
{
    let mut members = Lists::new(alloc, parts.len())?;
    for (node, part) in parts.iter().enumerate() {
        members.add(*part, node as u32)?;
    }
    Ok(members)
}

impl Parts {
    // The parts that are named by their least nodes.
    pub(crate) fn new(alloc: Global, parts: Vec<u32>) -> Result<Parts, AllocError>
        requires fits { length parts.items < 2 ^ 32 }
        requires low { IsLow parts.items }
        ensures whole { IfOk result (λ made. IsWhole made) }
        ensures parts { IfOk result (λ made. made.parts.items ≡ parts.items) }
    {
        let members = members_of(alloc, parts.as_slice())?;
        let plan = Plan::new(alloc, parts.as_slice())?;
        let counts = vec![in alloc; 0u32; parts.len()]?;
        let targets = parts.as_slice().to_vec(alloc)?;
        Ok(Parts {
            parts,
            members,
            plan,
            counts,
            targets,
            touched: Vec::new(alloc),
            ends: Vec::new(alloc),
        })
    }

    // A part that has still to divide others.
    pub(crate) fn next(&mut self) -> Option<u32>
        requires { IsWhole self.old }
        ensures whole { IsWhole self.new }
        ensures same { self.new.parts ≡ self.old.parts }
        ensures below { IfSome result (λ part. part < length self.old.parts.items) }
    {
        self.plan.next()
    }

    // Whether the node is alone in its part, so that it cannot be taken out.
    pub(crate) fn is_alone(&self, node: u32) -> bool
        requires whole { IsWhole self.now }
        requires node { node < length self.now.parts.items }
    {
        self.plan.size(self.parts[node as usize]) == 1
    }

    // Whether each of the nodes is alone in its part, so that none can be taken out.
    fn are_alone(&self, nodes: &[u32]) -> bool
        requires whole { IsWhole self.now }
        requires nodes { All (λ a. a < length self.now.parts.items) nodes.now }
    {
        for node in nodes {
            if !self.is_alone(*node) {
                return false;
            }
        }
        true
    }

    // Takes these nodes out of each part of which some are left, those of one part to one part.
    fn take_out(&mut self, nodes: &[u32]) -> Result<(), AllocError>
        requires whole { IsWhole self.old }
        requires nodes { All (λ a. a < length self.old.parts.items) nodes.now }
        ensures whole { OnOk result (IsWhole self.new) }
        ensures divided { OnOk result
            (IsDivided self.old.parts.items nodes.now self.new.parts.items) }
    {
        count(
            &mut self.counts,
            &mut self.touched,
            self.parts.as_slice(),
            nodes,
        )?;
        if are_whole(&self.plan, self.counts.as_slice(), self.touched.as_slice()) {
            clear_counts(&mut self.counts, self.touched.as_slice());
            return Ok(());
        }
        aim(
            &mut self.plan,
            &mut self.counts,
            &mut self.targets,
            self.touched.as_slice(),
        )?;
        put(
            &mut self.ends,
            &mut self.parts,
            &mut self.members,
            self.targets.as_slice(),
            nodes,
        )
    }

    // Whether the nodes need not be taken out: `next`, which is taken out after them, has the same, or each is alone.
    fn are_settled(&self, nodes: &[u32], next: &[u32]) -> bool
        requires whole { IsWhole self.now }
        requires nodes { All (λ a. a < length self.now.parts.items) nodes.now }
    {
        nodes == next || self.are_alone(nodes)
    }

    // The same, at little cost where it changes nothing. `next` are the nodes that are taken out after these.
    fn divide(&mut self, nodes: &[u32], next: &[u32]) -> Result<(), AllocError>
        requires whole { IsWhole self.old }
        requires nodes { All (λ a. a < length self.old.parts.items) nodes.now }
        ensures whole { OnOk result (IsWhole self.new) }
        ensures divided { OnOk result
            (IsDivided self.old.parts.items nodes.now self.new.parts.items) }
    {
        if self.are_settled(nodes, next) {
            return Ok(());
        }
        self.take_out(nodes)
    }

    // Divides by each of the lists, and leaves them empty.
    pub(crate) fn divide_by(&mut self, lists: &mut Lists<u32>) -> Result<(), AllocError>
        requires whole { IsWhole self.old }
        requires len { length lists.old ≡ MAX_FIELDS }
        requires below { All (All (λ a. a < length self.old.parts.items)) lists.old }
        ensures whole { OnOk result (IsWhole self.new) }
        ensures clear { OnOk result (AreClear MAX_FIELDS lists.new) }
        ensures kept { (nodes : List Node) → KeepTogether nodes self.old.parts.items →
            All (TellEqual nodes) lists.old
            → OnOk result (KeepTogether nodes self.new.parts.items) }
    {
        for place in 0..MAX_FIELDS {
            if !lists.row(place).is_empty() {
                self.divide(lists.row(place), row_after(lists, place))?;
                lists.clear(place);
            }
        }
        Ok(())
    }
}
