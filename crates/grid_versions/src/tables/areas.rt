//! The areas that regions and edges make.
ghost use Rattle.std.specs.Prelude.{Bool, IfOk};
ghost use Rattle.std.specs.Arc.{arc_value};
ghost use Rattle.nav_types.specs.declared.cells.Cell.{Cell};
ghost use Rattle.grid_versions.specs.inner.Building.{AreSides};
ghost use Rattle.grid_versions.specs.inner.Tables.{AreTables, AreFew};

use super::{borders, sums};
use chunk_regions::Labels;
use nav_types::{NoMemory, Size};
use reach_sets::AreaTable;
use region_edges::Edges;
use shared_list::SharedList;
use std::alloc::Global;
use std::sync::Arc;

/// The areas that these regions and edges make.
pub fn areas_of(
    alloc: Global,
    size: Size,
    labels: &SharedList<Labels>,
    east: &SharedList<Edges>,
    north: &SharedList<Edges>,
) -> Result<Arc<AreaTable, Global>, NoMemory>
    requires { (passes : Cell → Bool) × AreSides passes size labels.now east.now north.now }
    ensures few { IfOk result (λ areas. AreFew (record {
      labels = labels.now;
      east = east.now;
      north = north.now;
      areas = arc_value areas;
    })) }
    ensures areas { IfOk result (λ areas. (passes : Cell → Bool) → AreSides passes size labels.now east.now north.now
        → AreTables passes size (record {
          labels = labels.now;
          east = east.now;
          north = north.now;
          areas = arc_value areas;
        })) }
{
    let counts = sums::region_counts(alloc, labels)?;
    let links = borders::all_links(alloc, size, east, north)?;
    let table = AreaTable::build(alloc, counts.as_slice(), &links)?;
    Ok(Arc::new(alloc, table)?)
}
