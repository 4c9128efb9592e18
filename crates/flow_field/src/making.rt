//! How a field is made.
ghost use Rattle.std.specs.Prelude.{◌≡◌, ◌<◌, IfOk, IsTrue};
ghost use Rattle.nav_types.specs.Walks.{CanReach};
ghost use Rattle.flow_field.specs.Flows.{IsFieldOf};

use crate::fields::Field;
use crate::filling::free_marks;
use crate::queues::FieldQueue;
use crate::spreading::FieldSpread;
use crate::tables::Table;
use nav_types::{Aim, Areas, Cell, Class, FreeCells, NoMemory};
use std::alloc::Global;

/// The field of the targets of an aim: the cells that it hits in the start's area. The start must be passable, and some hit
/// cell must be joined to it.
///
/// Distances spread from all targets at once, in order: two queues hold the places that wait, and no heap is needed,
/// since a straight step costs the same everywhere and so does a diagonal one. The work and the memory grow with the
/// cells of the map.
pub fn field<M: FreeCells + Areas, A: Aim>(
    alloc: Global,
    map: &M,
    class: Class,
    start: Cell,
    aim: &A,
) -> Result<Field, NoMemory>
    requires class { class < M.class_count map.now }
    requires start { IsTrue (M.passes map.now class start) }
    requires aim { A.sound aim.now (M.extent map.now) }
    requires reach { CanReach (M.passes map.now class) start (A.hit aim.now (M.extent map.now)) }
    ensures size { IfOk result (λ field. field.size ≡ M.extent map.now) }
    ensures field { IfOk result (IsFieldOf (M.passes map.now class) (A.hit aim.now (M.extent map.now)) start) }
{
    let size = map.size();
    let mut spread = FieldSpread {
        marks: free_marks(alloc, map, class)?,
        straight: FieldQueue::new(alloc),
        diagonal: FieldQueue::new(alloc),
    };
    spread.find_targets(map, class, start, aim)?;
    spread.run(size.w as usize + 2)?;
    Ok(Field::of(Table {
        size,
        marks: spread.marks,
    }))
}
