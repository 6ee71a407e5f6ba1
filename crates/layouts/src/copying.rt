// A layout is asked for each of its answers once.
ghost use Rattle.std.specs.Prelude.{◌≡◌, ◌<◌, IfOk};
ghost use Rattle.layouts.specs.Admission.{EdgeOf, EdgesOf};
ghost use Rattle.layouts.specs.Copied.{marks_of, values};

use crate::network::Edge;
use crate::{Kind, Layout};
use std::alloc::{AllocError, Global};

// Under which cells a leaf counts, a mark for each cell; a total counts under none.
fn copy_marks<L: Layout>(heap: Global, layout: &L, leaf: usize) -> Result<Vec<bool>, AllocError>
    ensures { IfOk result (λ v. v.items ≡ values (L.shape layout.now).cells (marks_of (L.shape layout.now) leaf)) }
{
    let cells = layout.cells();
    let mut under = Vec::with_capacity(heap, cells)?;
    for cell in 0..cells {
        under.push(layout.counts(cell, leaf).unwrap_or(false))?;
    }
    Ok(under)
}

fn copy_edge<L: Layout>(heap: Global, layout: &L, cell: usize) -> Result<Edge, AllocError>
    requires { cell < (L.shape layout.now).cells }
    ensures { IfOk result (EdgeOf (L.shape layout.now) cell) }
{
    Ok(Edge {
        leaves: layout.leaves(cell).unwrap(),
        enters: layout.enters(cell).unwrap(),
        leaf: layout.kind(cell) == Some(Kind::Leaf),
        under: copy_marks(heap, layout, cell)?,
    })
}

pub(crate) fn copy_edges<L: Layout>(heap: Global, layout: &L) -> Result<Vec<Edge>, AllocError>
    ensures { IfOk result (λ v. EdgesOf (L.shape layout.now) (L.shape layout.now).cells v.items) }
{
    let cells = layout.cells();
    let mut edges = Vec::with_capacity(heap, cells)?;
    for cell in 0..cells {
        edges.push(copy_edge(heap, layout, cell)?)?;
    }
    Ok(edges)
}
