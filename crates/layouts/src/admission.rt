// Admission: a layout within the limits is asked for its answers, and all memory that it will ever need is got with them.
ghost use Rattle.std.specs.Prelude.{◌≡◌, true, IfOk, MatchResult};
ghost use Rattle.layouts.specs.Admission.{admissible, layout_refusal, shape_of};
ghost use Rattle.layouts.specs.Blank.{Clear, Fresh};
ghost use Rattle.layouts.specs.Shape.{Same};

use crate::Layout;
use crate::admitted::Admitted;
use crate::copying::copy_edges;
use crate::memory::{Bench, Cover, Mark, Memory, Row};
use crate::network::Network;
use refusals::Refusal;
use rules::telling::MOST_CONTRIBUTIONS;
use std::alloc::{AllocError, Global};

pub const MOST_CELLS: usize = 512;

const MOST_RELATIONS: usize = 128;

fn get_bench(heap: Global, cells: usize, relations: usize) -> Result<Bench, AllocError>
    ensures { IfOk result (Clear cells relations) }
{
    Ok(Bench {
        covers: vec![in heap; Cover::Shown; cells]?,
        table: vec![in heap; 0; cells]?,
        reached: vec![in heap; None; relations]?,
    })
}

fn get_memory(heap: Global, cells: usize, relations: usize) -> Result<Memory, AllocError>
    ensures { IfOk result (Fresh cells relations) }
{
    let blank = Row {
        figure: 0,
        need: 0,
        mark: Mark::Open,
    };
    Ok(Memory {
        records: Vec::with_capacity(heap, MOST_CONTRIBUTIONS)?,
        heads: vec![in heap; None; cells]?,
        pending: Vec::with_capacity(heap, MOST_CONTRIBUTIONS)?,
        seen: vec![in heap; false; MOST_CONTRIBUTIONS]?,
        rows: vec![in heap; blank; cells]?,
        bench: get_bench(heap, cells, relations)?,
    })
}

fn copy_network<L: Layout>(heap: Global, layout: &L) -> Result<Network, AllocError>
    requires { admissible (L.shape layout.now) ≡ true }
    ensures { IfOk result (λ n. Same (L.shape layout.now) (shape_of n)) }
{
    Ok(Network {
        relations: layout.relations(),
        edges: copy_edges(heap, layout)?,
    })
}

// Whether a layout is within the limits.
pub fn is_admissible<L: Layout>(layout: &L) -> bool
    ensures { result ≡ admissible (L.shape layout.now) }
{
    layout.cells() <= MOST_CELLS && layout.relations() <= MOST_RELATIONS
}

pub fn admit<L: Layout>(heap: Global, layout: &L) -> Result<Admitted, Refusal>
    ensures { MatchResult result (λ a. (admissible (L.shape layout.now) ≡ true) × Same (L.shape layout.now) (shape_of a.network)) (λ e. e ≡ layout_refusal (L.shape layout.now)) }
{
    if !is_admissible(layout) {
        return Err(Refusal::LayoutTooLarge);
    }
    let network = copy_network(heap, layout)?;
    let memory = get_memory(heap, layout.cells(), layout.relations())?;
    Ok(Admitted { network, memory })
}
