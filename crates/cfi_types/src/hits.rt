//! Which nodes name a node of a class, place by place.

ghost use Rattle.std.specs.Prelude.{◌≡◌, ◌<◌, length, All, OnOk};
ghost use Rattle.cfi_types.specs.inner.Hits.{AddsHits, GathersHits};
ghost use Rattle.cfi_types.specs.inner.Whole.{IsWhole};

use crate::lists::Lists;
use crate::parents::Name;
use crate::partition::Parts;
use std::alloc::AllocError;

// Adds the node of each name to the list of its place.
fn add_hits(hits: &mut Lists<u32>, names: &[Name]) -> Result<(), AllocError>
    requires { All (λ x. x.place < length hits.old) names.now }
    ensures { OnOk result (AddsHits hits.old names.now hits.new) }
{
    for name in names {
        hits.add(name.place, name.node)?;
    }
    Ok(())
}

// Whether the node of each name is alone in its part.
fn are_alone(parts: &Parts, names: &[Name]) -> bool
    requires whole { IsWhole parts.now }
    requires nodes { All (λ x. x.node < length parts.now.parts.items) names.now }
{
    for name in names {
        if !parts.is_alone(name.node) {
            return false;
        }
    }
    true
}

// Whether each node that names one of the part is alone in its own, so that the part divides none.
pub(crate) fn divides_none(parts: &Parts, parents: &Lists<Name>, part: u32) -> bool
    requires whole { IsWhole parts.now }
    requires part { part < length parts.now.parts.items }
    requires len { length parents.now ≡ length parts.now.parts.items }
    requires nodes { All (All (λ x. x.node < length parts.now.parts.items)) parents.now }
{
    for member in parts.members.row(part) {
        if !are_alone(parts, parents.row(*member)) {
            return false;
        }
    }
    true
}

// Adds the nodes that name one of the members, of those that are in the class, each to the list of the place.
pub(crate) fn gather(
    hits: &mut Lists<u32>,
    parents: &Lists<Name>,
    members: &[u32],
    classes: &[u32],
    class: u32,
) -> Result<(), AllocError>
    requires members { All (λ a. a < length parents.now) members.now }
    requires classes { length classes.now ≡ length parents.now }
    requires places { All (All (λ x. x.place < length hits.old)) parents.now }
    ensures { OnOk result
        (GathersHits hits.old parents.now members.now classes.now class hits.new) }
{
    for member in members {
        if classes[*member as usize] == class {
            add_hits(hits, parents.row(*member))?;
        }
    }
    Ok(())
}
