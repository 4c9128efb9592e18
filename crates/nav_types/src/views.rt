//! A map as searches see it: what is passable for a class, and what a search looks for.
ghost use Rattle.std.specs.Prelude.{◌≡◌, ◌+◌, ◌<◌, ◌≤◌, IfSome, IfNone, IsTrue, ◌↔◌, ℕ};
ghost use Rattle.nav_types.specs.declared.limits.TheConstants.{MAX_SIDE};
ghost use Rattle.nav_types.specs.Cells.{IsInside};
ghost use Rattle.nav_types.specs.Directions.{Leads};
ghost use Rattle.nav_types.specs.Walks.{Step};
ghost use Rattle.nav_types.specs.Beside.{IsFreeBeside, IsLegalFrom};
ghost use Rattle.nav_types.specs.DirSets.{holds};
ghost use Rattle.nav_types.specs.declared.directions.Dir.{Dir};

use crate::cells::{Cell, Class, Rect, Size};
use crate::directions::{Dir, DirSet};
use crate::straights::Axis;

/// A map as a search sees it: for each class, which cells are passable.
pub trait View {
    ghost use Rattle.std.specs.Prelude.{ℕ, Bool, ◌≡◌, ◌<◌, ◌≤◌, IsTrue};
    ghost use Rattle.nav_types.specs.declared.cells.Cell.{Cell};
    ghost use Rattle.nav_types.specs.declared.cells.Size.{Size};
    ghost use Rattle.nav_types.specs.Cells.{IsInside};

    ghost extent: { Self → Size };

    ghost class_count: { Self → ℕ };

    ghost passes: { Self → ℕ → Cell → Bool };

    /// The size of the map.
    fn size(&self) -> Size
        ensures { result ≡ extent self.now };

    /// The number of passability classes, from 1 to 16.
    fn classes(&self) -> u8
        ensures count { result ≡ class_count self.now }
        ensures some { 1 ≤ result }
        ensures few { result ≤ 16 };

    /// Whether the cell is passable for the class.
    fn passable(&self, class: Class, cell: Cell) -> bool
        requires class { class < class_count self.now }
        requires inside { IsInside (extent self.now) cell }
        ensures { result ≡ passes self.now class cell };

    // Only cells inside the map pass.
    ghost within: { (view : Self) (class : ℕ) (cell : Cell) → IsTrue (passes view class cell)
        → IsInside (extent view) cell };
}

/// A map that hands out the bits of a row, or of a part of it, at once.
pub trait Rows: View {
    ghost use Rattle.std.specs.Prelude.{◌<◌, ◌≤◌, ◌+◌, length};
    ghost use Rattle.nav_types.specs.Rows.{AreRowBits};

    /// Writes one number for each cell of row `j` from place `from` on, as many as there is room for: bit k is set exactly
    /// where the cell is impassable for class k.
    fn row_bits(&self, j: u16, from: u16, out: &mut [u16])
        requires row { j < (Self.extent self.now).h }
        requires within { from + length out.old ≤ (Self.extent self.now).w }
        ensures { AreRowBits (Self.class_count self.now) (Self.passes self.now) j from (length out.old) out.new };
}

/// A map that finds the passable and the impassable cells along its rows and columns. Any view is one by
/// [`CellByCell`](crate::CellByCell).
pub trait FreeCells: View {
    ghost use Rattle.std.specs.Prelude.{◌<◌};
    ghost use Rattle.nav_types.specs.Cells.{IsInside};
    ghost use Rattle.nav_types.specs.Lines.{IsFirstFree, IsFirstBlocked, cell_on, line_on, place_on, side_along};

    /// The place of the first cell of the line, from this one up, that is passable for the class; the length of the line
    /// where there is none.
    fn next_free(&self, class: Class, axis: Axis, cell: Cell) -> u16
        requires class { class < Self.class_count self.now }
        requires inside { IsInside (Self.extent self.now) cell }
        ensures { IsFirstFree (λ k. Self.passes self.now class (cell_on axis (line_on axis cell) k)) (place_on axis cell)
            (side_along axis (Self.extent self.now)) result };

    /// The place of the first cell of the line, from this one up, that is impassable for the class; the length of the line
    /// where there is none.
    fn next_blocked(&self, class: Class, axis: Axis, cell: Cell) -> u16
        requires class { class < Self.class_count self.now }
        requires inside { IsInside (Self.extent self.now) cell }
        ensures { IsFirstBlocked (λ k. Self.passes self.now class (cell_on axis (line_on axis cell) k))
            (place_on axis cell) (side_along axis (Self.extent self.now)) result };
}

/// A map whose areas are numbered.
pub trait Areas: View {
    ghost use Rattle.std.specs.Prelude.{ℕ, ◌≡◌, ◌<◌, ◌↔◌, IsTrue, IsFalse};
    ghost use Rattle.nav_types.specs.declared.cells.Cell.{Cell};
    ghost use Rattle.nav_types.specs.Cells.{IsInside};
    ghost use Rattle.nav_types.specs.Walks.{Joined};

    ghost has_area: { Self → ℕ → Cell → ℕ → Type 0 };

    /// The number of the cell's area for the class; 0 exactly for an impassable cell.
    fn area(&self, class: Class, cell: Cell) -> u32
        requires class { class < Self.class_count self.now }
        requires inside { IsInside (Self.extent self.now) cell }
        ensures { has_area self.now class cell result };

    // 0 goes with an impassable cell.
    ghost blocked: { (map : Self) (class : ℕ) (cell : Cell) (area : ℕ) → has_area map class cell area
        → (area ≡ 0) ↔ IsFalse (Self.passes map class cell) };

    // Two passable cells have one number exactly where a legal walk joins them.
    ghost joined: { (map : Self) (class : ℕ) (a b : Cell) (m n : ℕ) → IsTrue (Self.passes map class a)
        → IsTrue (Self.passes map class b)
        → has_area map class a m → has_area map class b n → (m ≡ n) ↔ Joined (Self.passes map class) a b };
}

/// What a search looks for: a set of cells, and a rectangle that holds them.
pub trait Aim {
    ghost use Rattle.std.specs.Prelude.{Bool, ◌≡◌, IsTrue};
    ghost use Rattle.nav_types.specs.declared.cells.Cell.{Cell};
    ghost use Rattle.nav_types.specs.declared.cells.Size.{Size};
    ghost use Rattle.nav_types.specs.Cells.{IsInside};
    ghost use Rattle.nav_types.specs.Frames.{IsFrame};

    ghost sound: { Self → Size → Type 0 };

    ghost hit: { Self → Size → Cell → Bool };

    ghost framed: { Self → Size → Cell → Bool };

    /// Whether the aim hits the cell.
    fn hits(&self, size: Size, cell: Cell) -> bool
        requires sound { sound self.now size }
        requires inside { IsInside size cell }
        ensures { result ≡ hit self.now size cell };

    /// The rectangle of the aim in a map of this size: its cells are exactly the framed ones.
    fn bounds(&self, size: Size) -> Rect
        requires { sound self.now size }
        ensures { IsFrame (framed self.now size) size result };

    // Each inside cell that a sound aim hits is framed.
    ghost hits_framed: { (aim : Self) (size : Size) (cell : Cell) → sound aim size → IsInside size cell
        → IsTrue (hit aim size cell) → IsTrue (framed aim size cell) };
}

/// The place that a step leads to along one side of a map. None exactly where it lies outside.
fn shifted(place: u16, gained: u16, lost: u16, side: u16) -> Option<u16>
    requires inside { place < side }
    requires gains { gained ≤ 1 }
    requires side { side ≤ MAX_SIDE }
    ensures some { IfSome result (λ next. (next + lost ≡ place + gained) × (next < side)) }
    ensures none { IfNone result ((next : ℕ) → next + lost ≡ place + gained → side ≤ next) }
{
    let ahead = place + gained;
    if ahead < lost || ahead - lost >= side {
        return None;
    }
    Some(ahead - lost)
}

/// The cell that one step in the direction leads to. None exactly where it lies outside the map.
pub fn neighbour(size: Size, cell: Cell, dir: Dir) -> Option<Cell>
    requires { IsInside size cell }
    ensures leads { IfSome result (Leads dir cell) }
    ensures inside { IfSome result (IsInside size) }
    ensures none { IfNone result ((next : Cell) → Leads dir cell next → ¬ IsInside size next) }
{
    let Some(i) = shifted(cell.i, dir.east(), dir.west(), size.w) else {
        return None;
    };
    let Some(j) = shifted(cell.j, dir.north(), dir.south(), size.h) else {
        return None;
    };
    Some(Cell::new(i, j))
}

/// Whether the cell that one step in the direction leads to is passable. Off the map no cell is.
#[inline(always)]
pub fn is_free_beside<V: View>(view: &V, class: Class, cell: Cell, dir: Dir) -> bool
    requires class { class < V.class_count view.now }
    requires inside { IsInside (V.extent view.now) cell }
    ensures { IsTrue result ↔ IsFreeBeside (V.passes view.now class) cell dir }
{
    match neighbour(view.size(), cell, dir) {
        Some(next) => view.passable(class, next),
        None => false,
    }
}

/// The cell that one legal step in the direction leads to. None exactly where that step is not legal.
pub fn step<V: View>(view: &V, class: Class, cell: Cell, dir: Dir) -> Option<Cell>
    requires class { class < V.class_count view.now }
    requires inside { IsInside (V.extent view.now) cell }
    ensures some { IfSome result (Step (V.passes view.now class) dir cell) }
    ensures none { IfNone result ((next : Cell) → ¬ Step (V.passes view.now class) dir cell next) }
{
    let size = view.size();
    let Some(to) = neighbour(size, cell, dir) else {
        return None;
    };
    let ends = view.passable(class, cell) && view.passable(class, to);
    // The two cells beside a straight step are its own.
    let legal = ends
        && (dir.is_straight()
            || view.passable(class, Cell::new(to.i, cell.j))
                && view.passable(class, Cell::new(cell.i, to.j)));
    if legal { Some(to) } else { None }
}

/// The directions in which a step from the cell is legal. It reads each of the nine cells about it once.
pub fn legal_steps<V: View>(view: &V, class: Class, cell: Cell) -> DirSet
    requires class { class < V.class_count view.now }
    requires inside { IsInside (V.extent view.now) cell }
    ensures { (dir : Dir) → IsTrue (holds result dir) ↔ IsLegalFrom (V.passes view.now class) cell dir }
{
    if view.passable(class, cell) {
        free_beside(view, class, cell).with_parts()
    } else {
        DirSet::new()
    }
}

/// The directions in which the cell beside is passable.
fn free_beside<V: View>(view: &V, class: Class, cell: Cell) -> DirSet
    requires class { class < V.class_count view.now }
    requires inside { IsInside (V.extent view.now) cell }
    ensures { (dir : Dir) → IsTrue (holds result dir) ↔ IsFreeBeside (V.passes view.now class) cell dir }
{
    let none = DirSet::new();
    let n = none.with_where(Dir::N, is_free_beside(view, class, cell, Dir::N));
    let e = n.with_where(Dir::E, is_free_beside(view, class, cell, Dir::E));
    let s = e.with_where(Dir::S, is_free_beside(view, class, cell, Dir::S));
    let w = s.with_where(Dir::W, is_free_beside(view, class, cell, Dir::W));
    let ne = w.with_where(Dir::NE, is_free_beside(view, class, cell, Dir::NE));
    let se = ne.with_where(Dir::SE, is_free_beside(view, class, cell, Dir::SE));
    let sw = se.with_where(Dir::SW, is_free_beside(view, class, cell, Dir::SW));
    sw.with_where(Dir::NW, is_free_beside(view, class, cell, Dir::NW))
}
