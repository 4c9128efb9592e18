//! The cells of a map by number.
ghost use Rattle.std.specs.Prelude.{◌≡◌, ◌*◌, ◌<◌, ◌≤◌};
ghost use Rattle.nav_types.specs.Cells.{IsInside};
ghost use Rattle.nav_types.specs.Places.{place_of, cell_of};

use nav_types::{Cell, View};

/// How many cells the map has.
pub fn cell_count<V: View>(view: &V) -> usize
    ensures value { result ≡ (V.extent view.now).w * (V.extent view.now).h }
    ensures few { result ≤ 4194304 }
{
    let size = view.size();
    size.w as usize * size.h as usize
}

/// The place of a cell among the cells of the map, row by row.
pub fn place<V: View>(view: &V, cell: Cell) -> usize
    requires { IsInside (V.extent view.now) cell }
    ensures value { result ≡ place_of (V.extent view.now) cell }
    ensures within { result < (V.extent view.now).w * (V.extent view.now).h }
{
    let width = view.size().w;
    cell.j as usize * width as usize + cell.i as usize
}

/// The cell at a place among the cells of the map.
pub fn cell_at_place<V: View>(view: &V, place: usize) -> Cell
    requires { place < (V.extent view.now).w * (V.extent view.now).h }
    ensures value { result ≡ cell_of (V.extent view.now) place }
    ensures inside { IsInside (V.extent view.now) result }
{
    let width = view.size().w as usize;
    Cell::new((place % width) as u16, (place / width) as u16)
}
