//! The fans of a flow.

ghost use Rattle.std.specs.Prelude.{◌≡◌, ◌<◌, ◌++◌, length, All, IfOk, OnOk};
ghost use Rattle.std.specs.List.{flat_map};
ghost use Rattle.cfi_flow.specs.Flow.{IsSound};
ghost use Rattle.cfi_flow.specs.Fans.{AreFans};
ghost use Rattle.cfi_flow.specs.inner.Reach.{AreClear};
ghost use Rattle.cfi_flow.specs.inner.FlowRows.{flow_row, AreFlowRows, AreInside, HaveNodes, IsFan, IsPointerFan, IsReturnFan};

use crate::fan::Fan;
use crate::links::Flow;
use crate::reach::reached;
use crate::rows::{Rows, rows_of};
use std::alloc::{AllocError, Global};

// The links of a flow by the nodes at which they begin.
#[derive(Debug, Drop)]
pub(crate) struct FlowRows {
    pub(crate) arrows: Rows,
    sites: Rows,
    returns: Rows,
    pointers: Rows,
    entries: Rows,
    widenings: Rows,
}

// The rows of a flow.
pub(crate) fn flow_rows(alloc: Global, flow: &Flow) -> Result<FlowRows, AllocError>
    requires { IsSound flow.now }
    ensures { IfOk result (λ rows. AreFlowRows flow.now rows) }
{
    let nodes = flow.nodes;
    Ok(FlowRows {
        arrows: rows_of(alloc, nodes, flow.arrows.as_slice())?,
        sites: rows_of(alloc, nodes, flow.sites.as_slice())?,
        returns: rows_of(alloc, nodes, flow.returns.as_slice())?,
        pointers: rows_of(alloc, nodes, flow.pointers.as_slice())?,
        entries: rows_of(alloc, nodes, flow.entries.as_slice())?,
        widenings: rows_of(alloc, nodes, flow.widenings.as_slice())?,
    })
}

// Adds the numbers of a row at the end.
fn add_row(numbers: &mut Vec<u32>, row: &[u32]) -> Result<(), AllocError>
    ensures { OnOk result (numbers.new.items ≡ numbers.old.items ++ row.now) }
{
    for number in row {
        numbers.push(*number)?;
    }
    Ok(())
}

// What the rows of these nodes hold, one after the other.
fn joined(alloc: Global, nodes: &[u32], rows: &Rows) -> Result<Vec<u32>, AllocError>
    requires { All (λ k. k < length rows.now) nodes.now }
    ensures { IfOk result (λ numbers. numbers.items ≡ flat_map (flow_row rows.now) nodes.now) }
{
    let mut numbers = Vec::new(alloc);
    for node in nodes {
        add_row(&mut numbers, rows.row(*node))?;
    }
    Ok(numbers)
}

// The fan of a node: its addresses, and the branches at what it reaches. No node is marked before, and none afterwards.
fn fan_of(
    alloc: Global,
    marks: &mut Vec<bool>,
    along: &Rows,
    branches: &Rows,
    addresses: &Rows,
    node: u32,
) -> Result<Fan, AllocError>
    requires inside { AreInside along.now }
    requires branches { length branches.now ≡ length along.now }
    requires addresses { length addresses.now ≡ length along.now }
    requires node { node < length along.now }
    requires clear { AreClear (length along.now) marks.old.items }
    ensures fan { IfOk result (IsFan along.now branches.now addresses.now node) }
    ensures clear { OnOk result (AreClear (length along.now) marks.new.items) }
{
    let targets = addresses.row(node);
    if targets.is_empty() {
        return Ok(Fan {
            slots: Vec::new(alloc),
            targets: Vec::new(alloc),
        });
    }
    let order = reached(alloc, marks, along, node)?;
    Ok(Fan {
        slots: joined(alloc, order.as_slice(), branches)?,
        targets: Vec::from_slice(alloc, targets)?,
    })
}

// The fan of the pointers to what a node stands for, and the fan of the returns from what it gets to.
pub(crate) fn node_fans(
    alloc: Global,
    marks: &mut Vec<bool>,
    rows: &FlowRows,
    node: u32,
) -> Result<(Fan, Fan), AllocError>
    requires rows { HaveNodes (length rows.now.arrows) rows.now }
    requires node { node < length rows.now.arrows }
    requires clear { AreClear (length rows.now.arrows) marks.old.items }
    ensures points { IfOk result (λ both. IsPointerFan rows.now node both.0) }
    ensures backs { IfOk result (λ both. IsReturnFan rows.now node both.1) }
    ensures clear { OnOk result (AreClear (length rows.now.arrows) marks.new.items) }
{
    let (wider, pointers) = (&rows.widenings, &rows.pointers);
    let points = fan_of(alloc, marks, wider, pointers, &rows.entries, node)?;
    let (arrows, returns) = (&rows.arrows, &rows.returns);
    let backs = fan_of(alloc, marks, arrows, returns, &rows.sites, node)?;
    Ok((points, backs))
}

// The fans of the nodes.
pub(crate) fn fans(alloc: Global, flow: &Flow) -> Result<Vec<Fan>, AllocError>
    requires { IsSound flow.now }
    ensures { IfOk result (λ fans. AreFans flow.now flow.now.nodes fans.items) }
{
    let rows = flow_rows(alloc, flow)?;
    let mut marks = vec![in alloc; false; rows.arrows.count()]?;
    let mut fans = Vec::new(alloc);
    for node in 0..flow.nodes {
        let (points, backs) = node_fans(alloc, &mut marks, &rows, node)?;
        fans.push(points)?;
        fans.push(backs)?;
    }
    Ok(fans)
}
