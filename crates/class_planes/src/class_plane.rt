//! The plane of one class.
ghost use Rattle.std.specs.Prelude.{◌≡◌, ◌<◌, ◌≤◌, ◌/◌, ◌+◌, All, length, IfOk, IsTrue};
ghost use Rattle.nav_types.specs.declared.cells.Cell.{Cell};
ghost use Rattle.nav_types.specs.Cells.{IsInside, IsRectInside, cell_at};
ghost use Rattle.nav_types.specs.Lines.{IsFirstFree, IsFirstBlocked, cell_on, line_on, place_on, side_along};
ghost use Rattle.class_planes.specs.Planes.{AreFreeBits, IsOutside, is_passable};
ghost use Rattle.class_planes.specs.inner.Lines.{AreRows, plane_of};
ghost use Rattle.class_planes.specs.inner.Reading.{AreRead, IsUnread};
ghost use Rattle.class_planes.specs.inner.Runs.{AreLanesOf, TellsStop};
ghost use Rattle.class_planes.specs.inner.Tracks.{IsTrackOf, line_count};

use crate::free_places::{first_blocked, first_free};
use crate::line_sets::{LineSet, unstopped};
use crate::lines::Lines;
use crate::read_cells::ReadRect;
use crate::rows::lines_of;
use crate::stops::{stopped, transposed, updated_stops};
use crate::transposed::{columns_of, updated_columns};
use crate::updates::updated_lines;
use crate::word_scans::Lanes;
use nav_types::{Axis, Cell, Class, NoMemory, Rect, Rows, Size, Straight, line_on, place_on};
use std::alloc::Global;
use std::marker::Model;

/// The passable cells of a map for one class as bits, by rows and by columns. A set bit is a passable cell. Contracts
/// see the size of the map and the set of those cells.
///
/// Bits past the map are 0, so that a run over set bits ends at the border by itself. The line after the last is one of
/// zeros, and serves before the first one too. Beside the cells it keeps for each straight direction from which cells
/// the run has a stop for a side that opens.
#[derive(Drop)]
pub struct ClassPlane {
    rows: LineSet,
    columns: LineSet,
    size: Size,
}

impl Model for ClassPlane {
    ghost use Rattle.nav_types.specs.declared.straights.Axis.TheVariants.{Row, Column};
    ghost use Rattle.class_planes.specs.Planes.{PlaneCells};
    ghost use Rattle.class_planes.specs.inner.Lines.{plane_of};
    ghost use Rattle.class_planes.specs.inner.StopLines.{map_lines};
    ghost use Rattle.class_planes.specs.inner.Tracks.{IsTrackAlong};

    ghost Value = { PlaneCells };

    ghost view = { λ p. plane_of (record { size = p.size; rows = map_lines p.rows }) };

    ghost invariant = { λ p. record {
      row_track : IsTrackAlong Row (record { size = p.size; rows = map_lines p.rows }) p.rows;
      column_track : IsTrackAlong Column (record { size = p.size; rows = map_lines p.rows }) p.columns;
    } };
}

impl ClassPlane {
    /// The plane of the class in any view that hands out rows. It reads each row once, by vectors of cells, and the
    /// columns from the rows, 16 at a time.
    pub fn build<V: Rows>(alloc: Global, view: &V, class: Class) -> Result<ClassPlane, NoMemory>
        requires class { class < V.class_count view.now }
        ensures size { IfOk result (λ plane. plane.size ≡ V.extent view.now) }
        ensures passes { IfOk result (λ plane. is_passable plane ≡ V.passes view.now class) }
    {
        let rows = lines_of(alloc, view, class)?;
        let plane = ClassPlane::of_rows(alloc, rows, view.size())?;
        Ok(plane)
    }

    /// The plane of a map that is given by its rows.
    fn of_rows(alloc: Global, rows: Lines, size: Size) -> Result<ClassPlane, NoMemory>
        requires { AreRows (record { size = size; rows = rows }) }
        ensures { IfOk result (λ plane. plane ≡ plane_of (record { size = size; rows = rows })) }
    {
        let lines = unstopped(alloc, &rows)?;
        let columns = columns_of(alloc, &lines, size)?;
        let row_track = stopped(alloc, lines, size.h)?;
        let column_track = stopped(alloc, columns, size.w)?;
        Ok(ClassPlane {
            rows: row_track,
            columns: column_track,
            size,
        })
    }

    /// The plane of the class in a view of the same size, where this plane is right outside of the rectangles, and outside
    /// of what was read. Bands that no rectangle meets are shared.
    pub(crate) fn renewed<V: Rows>(
        &self,
        alloc: Global,
        view: &V,
        class: Class,
        reads: &[ReadRect],
        rects: &[Rect],
    ) -> Result<ClassPlane, NoMemory>
        requires class { class < V.class_count view.now }
        requires extent { self.now.size ≡ V.extent view.now }
        requires read { All (AreRead (V.extent view.now) (V.class_count view.now) (V.passes view.now)) reads.now }
        requires inside { All (IsRectInside (V.extent view.now)) rects.now }
        requires same { (cell : Cell) → IsOutside rects.now cell
            → is_passable self.now cell ≡ V.passes view.now class cell }
        requires unread { (cell : Cell) → IsUnread reads.now cell
            → is_passable self.now cell ≡ V.passes view.now class cell }
        ensures size { IfOk result (λ plane. plane.size ≡ V.extent view.now) }
        ensures passes { IfOk result (λ plane. is_passable plane ≡ V.passes view.now class) }
    {
        let size = self.size;
        let rows = updated_lines(alloc, view, class, &self.rows, reads, rects)?;
        let columns = updated_columns(alloc, &rows, size, &self.columns, rects)?;
        let row_track = updated_stops(alloc, &self.rows, rows, size.h, rects)?;
        let across = transposed(alloc, rects)?;
        let column_track = updated_stops(alloc, &self.columns, columns, size.w, &across)?;
        Ok(ClassPlane {
            rows: row_track,
            columns: column_track,
            size,
        })
    }

    /// The size of the map, in navcells.
    pub fn size(&self) -> Size
        ensures { result ≡ self.now.size }
    {
        self.size
    }

    /// The passable cells of row `j`: bit `i % 64` of word `i / 64` is set exactly where the cell (i, j) is passable
    /// (`AreFreeBits`), for every i. The row after the last is a line of zeros.
    pub fn row_words(&self, j: u16) -> &[u64]
        requires row { j ≤ self.now.size.h }
        ensures words { length result.now ≡ self.now.size.w / 64 + 1 }
        ensures bits { AreFreeBits (λ i. is_passable self.now (cell_at i j)) result.now }
    {
        self.rows.line(j)
    }

    /// The passable cells of column `i`: bit `j % 64` of word `j / 64` is set exactly where the cell (i, j) is passable
    /// (`AreFreeBits`), for every j. The column after the last is a line of zeros.
    pub fn column_words(&self, i: u16) -> &[u64]
        requires column { i ≤ self.now.size.w }
        ensures words { length result.now ≡ self.now.size.h / 64 + 1 }
        ensures bits { AreFreeBits (λ j. is_passable self.now (cell_at i j)) result.now }
    {
        self.columns.line(i)
    }

    /// The first place of the line from the cell's own up whose cell is passable; the length of the line where there is
    /// none. It looks at 64 cells at a time.
    pub fn next_free(&self, axis: Axis, cell: Cell) -> u16
        requires { IsInside self.now.size cell }
        ensures { IsFirstFree (λ k. is_passable self.now (cell_on axis (line_on axis cell) k)) (place_on axis cell)
            (side_along axis self.now.size) result }
    {
        match axis {
            Axis::Row => first_free(self.row_words(cell.j), cell.i, self.size.w),
            Axis::Column => first_free(self.column_words(cell.i), cell.j, self.size.h),
        }
    }

    /// The first place of the line from the cell's own up whose cell is not passable; the length of the line where there
    /// is none. It looks at 64 cells at a time.
    pub fn next_blocked(&self, axis: Axis, cell: Cell) -> u16
        requires { IsInside self.now.size cell }
        ensures { IsFirstBlocked (λ k. is_passable self.now (cell_on axis (line_on axis cell) k)) (place_on axis cell)
            (side_along axis self.now.size) result }
    {
        match axis {
            Axis::Row => first_blocked(self.row_words(cell.j), cell.i, self.size.w),
            Axis::Column => first_blocked(self.column_words(cell.i), cell.j, self.size.h),
        }
    }

    /// The lines along the axis.
    #[inline(always)]
    fn line_set(&self, axis: Axis) -> &LineSet
        ensures { IsTrackOf (λ n k. is_passable self.now (cell_on axis n k)) (line_count axis self.now.size)
            (side_along axis self.now.size) result.now }
    {
        match axis {
            Axis::Row => &self.rows,
            Axis::Column => &self.columns,
        }
    }

    /// How many lines the map has along the axis.
    #[inline(always)]
    fn line_count(&self, axis: Axis) -> u16
        ensures { result ≡ line_count axis self.now.size }
    {
        match axis {
            Axis::Row => self.size.h,
            Axis::Column => self.size.w,
        }
    }

    /// The line of the cell along the axis, with the lines beside it.
    #[inline(always)]
    pub(crate) fn lanes_at(&self, axis: Axis, cell: Cell) -> Lanes<'_>
        requires { IsTrue (is_passable self.now cell) }
        ensures words { length result.mid ≡ side_along axis self.now.size / 64 + 1 }
        ensures bits { AreLanesOf (λ n k. is_passable self.now (cell_on axis n k)) (line_on axis cell) result }
    {
        self.line_set(axis)
            .lanes_at(self.line_count(axis), line_on(axis, cell))
    }

    /// Whether a cell of the map is passable.
    pub fn passable(&self, cell: Cell) -> bool
        requires { IsInside self.now.size cell }
        ensures { result ≡ is_passable self.now cell }
    {
        self.rows.is_free(cell.j, cell.i)
    }

    /// Whether the straight run from the cell has a stop for a side that opens.
    #[inline(always)]
    pub(crate) fn has_jump_point(&self, cell: Cell, straight: Straight) -> bool
        requires { IsTrue (is_passable self.now cell) }
        ensures { TellsStop (is_passable self.now) straight cell result }
    {
        let axis = straight.axis;
        self.line_set(axis)
            .has_jump_point(straight.way, line_on(axis, cell), place_on(axis, cell))
    }
}
