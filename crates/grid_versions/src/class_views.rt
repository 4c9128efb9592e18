//! A version as the requests of one class see it.
ghost use Rattle.std.specs.Prelude.{◌≡◌, ◌<◌, length};

use crate::versions::Version;
use class_planes::ClassPlane;
use nav_types::{Areas, Axis, Cell, Class, FreeCells, Size, View};
use std::marker::Model;

/// A version for the requests of one class: its cells are read from the plane of the class, which is looked up once. Other
/// classes are answered too, as the version answers them. Contracts see what they see of the version (`MapState`).
#[derive(Drop)]
pub struct ClassView<'a> {
    version: &'a Version,
    plane: &'a ClassPlane,
    class: Class,
}

impl<'a> Model for ClassView<'a> {
    ghost use Rattle.std.specs.Prelude.{◌≡◌};
    ghost use Rattle.class_planes.specs.Planes.{is_passable};
    ghost use Rattle.grid_versions.specs.contracts.versions.Version.{the_row as version_row};
    ghost use Rattle.grid_versions.specs.Versions.{MapState, passes_of};

    ghost Value = { MapState };

    ghost coded = { version_row.coded };

    ghost view = { λ v. v.version.now };

    ghost invariant = { λ v. (v.plane.now.size ≡ v.version.now.map.size)
        × (is_passable v.plane.now ≡ passes_of v.version.now v.class) };
}

impl<'a> ClassView<'a> {
    /// The version, with the plane of the class.
    pub(crate) fn new(version: &'a Version, class: Class) -> ClassView<'a>
        requires { class < length version.now.map.classes }
        ensures { result ≡ version.now }
    {
        ClassView {
            version,
            plane: version.plane(class),
            class,
        }
    }
}

impl<'a> View for ClassView<'a> {
    ghost use Rattle.grid_versions.specs.Versions.{MapState, passes_of};
    ghost use Rattle.grid_versions.specs.inner.PassingLaws.{passes_within};
    ghost use Rattle.std.specs.Prelude.{length};

    ghost extent = { λ v. v.map.size };

    ghost class_count = { λ v. length v.map.classes };

    ghost passes = { passes_of };

    ghost within = { passes_within };

    /// The size of the map, in navcells.
    #[inline]
    fn size(&self) -> Size {
        self.plane.size()
    }

    /// The number of passability classes of the map.
    fn classes(&self) -> u8 {
        self.version.classes()
    }

    /// Whether the cell is passable for the class.
    #[inline]
    fn passable(&self, class: Class, cell: Cell) -> bool {
        if class == self.class {
            self.plane.passable(cell)
        } else {
            self.version.passable(class, cell)
        }
    }
}

impl<'a> FreeCells for ClassView<'a> {
    /// The place of the first passable cell of the line, from this one up (`IsFirstFree`); the length of the line where
    /// there is none.
    #[inline]
    fn next_free(&self, class: Class, axis: Axis, cell: Cell) -> u16 {
        if class == self.class {
            self.plane.next_free(axis, cell)
        } else {
            self.version.next_free(class, axis, cell)
        }
    }

    /// The place of the first impassable cell of the line, from this one up (`IsFirstBlocked`); the length of the line
    /// where there is none.
    #[inline]
    fn next_blocked(&self, class: Class, axis: Axis, cell: Cell) -> u16 {
        if class == self.class {
            self.plane.next_blocked(axis, cell)
        } else {
            self.version.next_blocked(class, axis, cell)
        }
    }
}

impl<'a> Areas for ClassView<'a> {
    ghost use Rattle.nav_types.specs.Regions.{HasArea};
    ghost use Rattle.grid_versions.specs.Versions.{passes_of};
    ghost use Rattle.grid_versions.specs.inner.PassingLaws.{area_zero, area_joined};

    ghost has_area = { λ v class cell area. HasArea (passes_of v class) cell area };

    ghost blocked = { λ v class cell area has. area_zero (passes_of v class) cell area has };

    ghost joined = { λ v class a b m n pa pb ha hb. area_joined (passes_of v class) a b m n pa pb ha hb };

    /// The number of the cell's area for the class; 0 exactly for an impassable cell (`HasArea`).
    fn area(&self, class: Class, cell: Cell) -> u32 {
        self.version.area(class, cell)
    }
}
