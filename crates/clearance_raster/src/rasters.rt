//! Setting the bits of the cells that an obstruction blocks, for all classes at once.
ghost use Rattle.std.specs.Prelude.{◌≡◌, ◌≤◌, ◌<◌, ◌==◌, ◌&&◌, ℕ, max, IsTrue};
ghost use Rattle.std.specs.Int.{bit_at};
ghost use Rattle.nav_types.specs.declared.cells.Cell.{Cell};
ghost use Rattle.nav_types.specs.Cells.{IsInside, IsInRect, IsRectInside};
ghost use Rattle.nav_types.specs.Numbering.{number_of};
ghost use Rattle.lane_rows.specs.Rows.{has_class, one_if};
ghost use Rattle.navcell_grid.specs.Grids.{number_at};
ghost use Rattle.nav_types.specs.Rects.{IsPartOf};
ghost use Rattle.obstruction_shapes.specs.Shapes.{FitsMap, HasUnitVector};
ghost use Rattle.obstruction_shapes.specs.Blocking.{blocked};
ghost use Rattle.clearance_raster.specs.Rasters.{blocks_class};
ghost use Rattle.clearance_raster.specs.inner.TestRasters.{IsRasterIn};

use crate::canvases::Canvas;
use crate::masks::{classes_with, is_left};
use crate::met_rows::met_part;
use crate::runs::run_in_row;
use class_config::ClassTable;
use fixed_point::Fixed;
use nav_types::{Class, Rect, Size};
use navcell_grid::{Grid, Patch};
use obstruction_shapes::{Obstruction, Shape};

/// Sets the bits of the cells that an obstruction blocks. For each cell of the grid, the bit of a class
/// is set exactly where it was set before, or the mask has the bit of the class, the table has the class
/// and the shape blocks the cell with that class's clearance (`blocks_class` of `specs/Rasters.antt`).
/// Each other bit stays, and so does the size.
///
/// The shape fits the size of the grid.
pub fn raster(grid: &mut Grid, obstruction: &Obstruction, classes: &ClassTable)
    requires { FitsMap grid.old.size obstruction.now.shape }
    ensures size { grid.new.size ≡ grid.old.size }
    ensures bits { (cell : Cell) (k : ℕ) → IsInside grid.old.size cell
        → bit_at (number_at grid.new cell) k ≡ max (bit_at (number_at grid.old cell) k) (one_if (blocks_class obstruction.now classes.now k cell)) }
{
    let size = grid.size();
    raster_classes(grid, Rect::of_map(size), obstruction, classes, size);
}

/// Sets the bits of the cells of a part of a patch that an obstruction blocks. For each cell of the part, the bit of a
/// class is set exactly where it was set before or the obstruction blocks the cell for the class (`blocks_class`). Each
/// other number stays.
///
/// The part lies in the patch and in a map of this size, which the shape fits.
pub fn raster_in(
    patch: &mut Patch,
    part: Rect,
    obstruction: &Obstruction,
    classes: &ClassTable,
    size: Size,
)
    requires fits { FitsMap size obstruction.now.shape }
    requires inside { IsRectInside size part }
    requires part { IsPartOf patch.old.rect part }
    ensures rect { patch.new.rect ≡ patch.old.rect }
    ensures bits { (cell : Cell) (k : ℕ) → IsInRect part cell
        → bit_at (number_of patch.new cell) k ≡ max (bit_at (number_of patch.old cell) k) (one_if (blocks_class obstruction.now classes.now k cell)) }
    ensures others { (cell : Cell) → IsInRect patch.old.rect cell → ¬ IsInRect part cell
        → number_of patch.new cell ≡ number_of patch.old cell }
{
    raster_classes(patch, part, obstruction, classes, size);
}

/// A shape with the clearance that is kept round it.
#[derive(Clone, Copy)]
struct Grown {
    shape: Shape,
    clearance: Fixed,
}

/// Sets the bits of all classes of the mask, one clearance after another.
fn raster_classes<C: Canvas>(
    canvas: &mut C,
    part: Rect,
    obstruction: &Obstruction,
    classes: &ClassTable,
    size: Size,
)
    requires fits { FitsMap size obstruction.now.shape }
    requires inside { IsRectInside size part }
    requires part { IsPartOf (C.rect_of canvas.old) part }
    ensures rect { C.rect_of canvas.new ≡ C.rect_of canvas.old }
    ensures set { IsRasterIn (C.rect_of canvas.old) part (blocks_class obstruction.now classes.now) (C.number canvas.old) (C.number canvas.new) }
{
    let mut done = 0;
    for number in 0..classes.count() {
        let class = Class::new(number);
        if is_left(obstruction.mask, done, class) {
            let clearance = classes.clearance(class);
            let alike = classes_with(classes, clearance, obstruction.mask);
            raster_mask(canvas, part, &obstruction.shape, clearance, alike, size);
            done |= alike;
        }
    }
}

/// Sets the bits of the mask in each cell of the part that the shape blocks with this clearance.
fn raster_mask<C: Canvas>(
    canvas: &mut C,
    part: Rect,
    shape: &Shape,
    clearance: Fixed,
    mask: u16,
    size: Size,
)
    requires fits { FitsMap size shape.now }
    requires inside { IsRectInside size part }
    requires part { IsPartOf (C.rect_of canvas.old) part }
    ensures rect { C.rect_of canvas.new ≡ C.rect_of canvas.old }
    ensures set { IsRasterIn (C.rect_of canvas.old) part (λ k cell. has_class k mask && blocked shape.now clearance cell) (C.number canvas.old) (C.number canvas.new) }
{
    let grown = Grown {
        shape: *shape,
        clearance,
    };
    if let Some(rect) = met_part(shape, clearance, part, size) {
        for j in rect.j0..rect.j1 + 1 {
            raster_row(canvas, part, &grown, mask, rect, j);
        }
    }
}

/// Sets the bits of the mask in each cell of row `j` of the part that the shape blocks with its clearance. The
/// rectangle lies in the part and holds all cells of it that the shape blocks.
fn raster_row<C: Canvas>(canvas: &mut C, part: Rect, grown: &Grown, mask: u16, rect: Rect, j: u16)
    requires vector { HasUnitVector grown.now.shape }
    requires part { IsPartOf (C.rect_of canvas.old) part }
    requires inside { IsPartOf part rect }
    requires south { rect.j0 ≤ j }
    requires north { j ≤ rect.j1 }
    requires reached { (cell : Cell) → IsInRect part cell → IsTrue (blocked grown.now.shape grown.now.clearance cell)
        → IsInRect rect cell }
    ensures rect { C.rect_of canvas.new ≡ C.rect_of canvas.old }
    ensures set { IsRasterIn (C.rect_of canvas.old) part (λ k cell. has_class k mask && cell.j == j && blocked grown.now.shape grown.now.clearance cell) (C.number canvas.old) (C.number canvas.new) }
{
    if let Some((first, last)) = run_in_row(&grown.shape, grown.clearance, rect, j) {
        canvas.set_span(j, first, last, mask);
    }
}
