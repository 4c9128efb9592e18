//! A law of blocked cells.
ghost use Rattle.std.specs.Prelude.{◌≤◌, ℕ, ℤ, IsTrue};
ghost use Rattle.nav_types.specs.Cells.{cell_at};
ghost use Rattle.obstruction_shapes.specs.declared.shapes.Shape.{Shape};
ghost use Rattle.obstruction_shapes.specs.Blocking.{blocked};

/// A law: the cells of one row that a shape blocks for one class are one run. Where two columns are
/// blocked, so is each column between them.
pub fn blocked_cells_are_one_run()
    ensures { (shape : Shape) (clearance : ℤ) (first middle last j : ℕ) → first ≤ middle → middle ≤ last
        → IsTrue (blocked shape clearance (cell_at first j)) → IsTrue (blocked shape clearance (cell_at last j))
        → IsTrue (blocked shape clearance (cell_at middle j)) }
{}
