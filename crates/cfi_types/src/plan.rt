//! How large parts are, and which of them have still to divide others.

ghost use Rattle.std.specs.Prelude.{◌≡◌, ◌<◌, ◌^◌, length, slice_index, vec_len, All, IfOk, IfSome};

use std::alloc::{AllocError, Global};

/// What is known of parts by their numbers.
#[derive(Drop)]
pub(crate) struct Plan {
    // How many nodes each part has.
    sizes: Vec<u32>,
    // Whether each part waits.
    waits: Vec<bool>,
    // The parts that wait.
    waiting: Vec<u32>,
    // The numbers that no part has.
    free: Vec<u32>,
    ghost waits_len: { vec_len waits ≡ vec_len sizes },
    ghost waiting_below: { All (λ k. k < vec_len sizes) waiting.items },
    ghost free_below: { All (λ k. k < vec_len sizes) free.items },
}

// The part with the most nodes.
fn largest(sizes: &[u32]) -> usize {
    let mut best = 0;
    for i in 0..sizes.len() {
        if sizes[i] > sizes[best] {
            best = i;
        }
    }
    best
}

// How many nodes each part has.
pub(crate) fn sizes_of(alloc: Global, parts: &[u32]) -> Result<Vec<u32>, AllocError>
    requires { All (λ k. k < length parts.now) parts.now }
    ensures { IfOk result (λ sizes. vec_len sizes ≡ length parts.now) }
{
    let mut sizes = vec![in alloc; 0u32; parts.len()]?;
    for part in parts {
        let size = sizes[*part as usize];
        sizes[*part as usize] = size.saturating_add(1);
    }
    Ok(sizes)
}

impl Plan {
    // Of parts that are named by their least nodes; all but one with the most nodes wait.
    pub(crate) fn new(alloc: Global, parts: &[u32]) -> Result<Plan, AllocError>
        requires fits { length parts.now < 2 ^ 32 }
        requires below { All (λ k. k < length parts.now) parts.now }
        ensures { IfOk result (λ plan. vec_len plan.sizes ≡ length parts.now) }
    {
        let sizes = sizes_of(alloc, parts)?;
        let last = largest(sizes.as_slice());
        let mut plan = Plan {
            waits: vec![in alloc; false; parts.len()]?,
            sizes,
            waiting: Vec::new(alloc),
            free: Vec::new(alloc),
        };
        for (number, part) in parts.iter().enumerate() {
            if *part as usize != number {
                plan.spare(number as u32)?;
            } else if number != last {
                plan.wait(number as u32)?;
            }
        }
        Ok(plan)
    }

    // Keeps a number that no part has.
    fn spare(&mut self, number: u32) -> Result<(), AllocError>
        requires { number < vec_len self.old.sizes }
        ensures { vec_len self.new.sizes ≡ vec_len self.old.sizes }
    {
        self.free.push(number)?;
        Ok(())
    }

    // Lets a part wait.
    fn wait(&mut self, part: u32) -> Result<(), AllocError>
        requires { part < vec_len self.old.sizes }
        ensures { vec_len self.new.sizes ≡ vec_len self.old.sizes }
    {
        self.waits[part as usize] = true;
        self.waiting.push(part)?;
        Ok(())
    }

    // How many nodes a part has.
    pub(crate) fn size(&self, part: u32) -> u32
        requires { part < vec_len self.now.sizes }
        ensures { result ≡ slice_index self.now.sizes.items part }
    {
        self.sizes[part as usize]
    }

    // A part that has waited; none where no number is left for a part, so that none can be divided.
    pub(crate) fn next(&mut self) -> Option<u32>
        ensures below { IfSome result (λ part. part < vec_len self.old.sizes) }
        ensures len { vec_len self.new.sizes ≡ vec_len self.old.sizes }
    {
        if self.free.is_empty() {
            return None;
        }
        let part = self.waiting.pop()?;
        self.waits[part as usize] = false;
        Some(part)
    }

    // The part of `count` nodes that are taken out of this one; this one itself, where no node would stay.
    //
    // Where the part does not wait, the smaller of the two does from now on: each node is in few parts that wait.
    pub(crate) fn divide(&mut self, part: u32, count: u32) -> Result<u32, AllocError>
        requires { part < vec_len self.old.sizes }
        ensures below { IfOk result (λ to. to < vec_len self.old.sizes) }
        ensures len { vec_len self.new.sizes ≡ vec_len self.old.sizes }
    {
        let rest = self.sizes[part as usize].saturating_sub(count);
        if rest == 0 {
            return Ok(part);
        }
        let Some(taken) = self.free.pop() else {
            return Ok(part);
        };
        self.sizes[part as usize] = rest;
        self.sizes[taken as usize] = count;
        if self.waits[part as usize] || count <= rest {
            self.wait(taken)?;
        } else {
            self.wait(part)?;
        }
        Ok(taken)
    }
}
