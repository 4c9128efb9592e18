//! A map whose cells are painted: the view from which planes are made.
ghost use Rattle.std.specs.Prelude.{ℕ, ◌≡◌, ◌+◌, ◌-◌, ◌≤◌, ◌<◌, length, slice_index};
ghost use Rattle.grid_versions.specs.Versions.{map_state};
ghost use Rattle.grid_versions.specs.inner.Painting.{ArePaintedChunks};

use crate::chunks;
use crate::sites::Site;
use nav_types::limits::CHUNK_SIDE;
use nav_types::{Cell, Chunk, Class, Rows, Size, View};
use navcell_grid::Patch;
use shared_list::SharedList;
use std::marker::Model;

/// A map, its obstructions and the numbers of its chunks' cells. Contracts see the map and the obstructions.
#[derive(Drop)]
pub struct PaintedMap<'a> {
    site: &'a Site<'a>,
    cells: &'a SharedList<Patch>,
}

impl<'a> Model for PaintedMap<'a> {
    ghost use Rattle.std.specs.FinMap as fin_map;
    ghost use Rattle.std.specs.Coded.{coded_ℕ};
    ghost use Rattle.obstruction_shapes.specs.contracts.shapes.Obstruction.{the_row as obstruction_row};
    ghost use Rattle.posts.specs.contracts.maps.MapSpec.{the_row as map_row};
    ghost use Rattle.grid_versions.specs.Versions.{MapState, map_state};
    ghost use Rattle.grid_versions.specs.inner.Codes.{state_code};
    ghost use Rattle.grid_versions.specs.inner.Painting.{ArePaintedChunks};

    ghost Value = { MapState };

    ghost coded = { state_code map_row.coded (fin_map.code coded_ℕ obstruction_row.coded) };

    ghost view = { λ p. map_state p.site.now.map.now p.site.now.shapes.now };

    ghost invariant = { λ p. ArePaintedChunks p.site.now.map.now p.site.now.shapes.now p.cells.now };
}

impl<'a> PaintedMap<'a> {
    /// The map with these obstructions, where the cells have their numbers.
    pub fn new(site: &'a Site<'a>, cells: &'a SharedList<Patch>) -> PaintedMap<'a>
        requires { ArePaintedChunks site.now.map.now site.now.shapes.now cells.now }
        ensures { result ≡ map_state site.now.map.now site.now.shapes.now }
    {
        PaintedMap { site, cells }
    }
}

impl<'a> View for PaintedMap<'a> {
    ghost use Rattle.grid_versions.specs.Versions.{MapState, passes_of};
    ghost use Rattle.grid_versions.specs.inner.PassingLaws.{passes_within};
    ghost use Rattle.std.specs.Prelude.{length};

    ghost extent = { λ p. p.map.size };

    ghost class_count = { λ p. length p.map.classes };

    ghost passes = { passes_of };

    ghost within = { passes_within };

    fn size(&self) -> Size {
        self.site.map.size()
    }

    fn classes(&self) -> u8 {
        self.site.map.classes().count()
    }

    fn passable(&self, class: Class, cell: Cell) -> bool {
        let place = chunks::place_of(self.site.map.size(), cell.chunk());
        self.cells.at(place as usize).is_free(class, cell)
    }
}

impl<'a> Rows for PaintedMap<'a> {
    fn row_bits(&self, j: u16, from: u16, out: &mut [u16]) {
        let size = self.site.map.size();
        let end = from + out.len() as u16;
        for ci in from / CHUNK_SIDE..(end + CHUNK_SIDE - 1) / CHUNK_SIDE {
            let cj = j / CHUNK_SIDE;
            let place = chunks::place_of(size, Chunk { cj, ci });
            let row = self.cells.at(place as usize).row(j);
            write_part(out, from, row, ci * CHUNK_SIDE);
        }
    }
}

/// Writes the numbers of the places from `west` on to those from `from` on, where both are.
fn write_part(out: &mut [u16], from: u16, numbers: &[u16], west: u16)
    requires here { from ≤ west + length numbers.now }
    requires there { west ≤ from + length out.old }
    ensures stays { length out.new ≡ length out.old }
    ensures inside { (k : ℕ) → k < length out.new → west ≤ from + k → from + k < west + length numbers.now
        → slice_index out.new k ≡ slice_index numbers.now (from + k - west) }
    ensures before { (k : ℕ) → from + k < west → slice_index out.new k ≡ slice_index out.old k }
{
    let from = usize::from(from);
    let west = usize::from(west);
    let first = from.max(west);
    let end = (from + out.len()).min(west + numbers.len());
    out[first - from..end - from].copy_from_slice(&numbers[first - west..end - west]);
}
