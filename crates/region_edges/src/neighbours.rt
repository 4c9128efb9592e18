//! The region edges of two neighbouring chunks.
ghost use Rattle.std.specs.Prelude.{Bool, IfOk};
ghost use Rattle.nav_types.specs.declared.cells.Cell.{Cell};
ghost use Rattle.nav_types.specs.declared.cells.Size.{Size};
ghost use Rattle.chunk_regions.specs.Labelling.{AreLabels};
ghost use Rattle.region_edges.specs.Edges.{AreNeighbours, PassesInside, AreEdges};

use crate::borders::{meetings, put_in_order};
use chunk_regions::{Labels, one_region};
use nav_types::{NoMemory, Sequence};
use std::alloc::Global;

/// The place of a chunk as seen from its neighbour.
#[derive(Clone, Copy, Debug, PartialEq, Eq)]
pub enum ChunkSide {
    /// One chunk column further east.
    East,
    /// One chunk row further north.
    North,
}

/// Pairs of regions: the number of a region here, and that of one there. Contracts see the list.
pub type Edges = Sequence<(u16, u16)>;

/// The region edges across the border of two neighbouring chunks of one class and map: the pairs (region here,
/// region there) that have passable cells side by side, each once, by the region here and then by the region there
/// (`AreEdges`). The chunk there lies on that side of the chunk here (`AreNeighbours`). It looks at each cell
/// along the border at most once, so at a chunk's side of them or fewer on each side. It refuses for want of memory
/// alone.
pub fn between(
    alloc: Global,
    here: &Labels,
    there: &Labels,
    side: ChunkSide,
) -> Result<Edges, NoMemory>
    requires neighbours { AreNeighbours side here.now there.now }
    ensures edges { IfOk result (λ edges. (passes : Cell → Bool) (size : Size) → PassesInside passes size
        → AreLabels passes size here.now.chunk here.now → AreLabels passes size there.now.chunk there.now
        → AreEdges passes here.now.chunk there.now.chunk edges) }
{
    let mut pairs = meetings(alloc, here, there, side)?;
    put_in_order(&mut pairs);
    // A cell has one region number at most, so the labels' numbers are those of the edges.
    one_region();
    Ok(Edges::from(pairs))
}
