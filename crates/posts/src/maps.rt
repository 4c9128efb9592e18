//! Maps.
ghost use Rattle.std.specs.Prelude.{◌≡◌, ◌≤◌, ◌↔◌, All, IsTrue, IsSome, IfSome, IfOk, OnOk, OnErr};
ghost use Rattle.nav_types.specs.declared.limits.TheConstants.{MAX_CALLERS};
ghost use Rattle.nav_types.specs.Cells.{IsRectInside};

use class_config::ClassTable;
use nav_types::limits::MAX_CALLERS;
use nav_types::{NoMemory, Rect, Sequence, Size};
use std::alloc::Global;
use std::marker::Model;

/// Rectangles that are impassable from the start, each with a mask: bit k of the mask is for class k.
pub type BaseRects = Sequence<(Rect, u16)>;

/// The newest version of a script.
const NEWEST_VERSION: u8 = 3;

/// A map: the version of its script, its size, its number of callers, its passability classes and its base
/// rectangles. Contracts see these five (`Map` of `specs/Maps.antt`).
///
/// The version is 1 to 3, there are 1 to 64 callers, and each base rectangle lies inside the map (`IsMap`).
#[derive(Drop)]
pub struct MapSpec {
    base: BaseRects,
    classes: ClassTable,
    size: Size,
    version: u8,
    callers: u8,
}

impl Model for MapSpec {
    ghost use Rattle.posts.specs.Maps.{Map, IsMap, map_of};

    ghost Value = { Map };

    ghost view = { λ m. map_of m.version m.size m.callers m.classes m.base };

    ghost invariant = { λ m. IsMap (map_of m.version m.size m.callers m.classes m.base) };
}

impl MapSpec {
    ghost use Rattle.posts.specs.Maps.{IsMap, map_of, with_base};

    /// The map of these parts. None exactly where one of them breaks a limit (`IsMap`): the version is not 1
    /// to 3, the callers are not 1 to 64, or a base rectangle has no cell or does not lie inside the map.
    pub fn new(
        version: u8,
        size: Size,
        callers: u8,
        classes: ClassTable,
        base: BaseRects,
    ) -> Option<MapSpec>
        ensures some { IsSome result ↔ IsMap (map_of version size callers classes base) }
        ensures value { IfSome result (λ map. map ≡ map_of version size callers classes base) }
    {
        if !is_in_limits(version, callers) {
            return None;
        }
        if !are_inside(base.as_slice(), size) {
            return None;
        }
        Some(MapSpec {
            base,
            classes,
            size,
            version,
            callers,
        })
    }

    /// Adds base rectangles behind those that the map has. Each of them lies inside the map. Where there is no
    /// memory for them the map stays.
    pub fn add_base(&mut self, rects: &[(Rect, u16)]) -> Result<(), NoMemory>
        requires inside { All (λ entry. IsRectInside self.old.size entry.0) rects.now }
        ensures ok { OnOk result (self.new ≡ with_base self.old rects.now) }
        ensures err { OnErr result (self.new ≡ self.old) }
    {
        self.base.extend(rects)
    }

    /// The version of the map's script, from 1 to 3.
    pub fn version(&self) -> u8
        ensures version { result ≡ self.now.version }
        ensures limits { (1 ≤ result) × (result ≤ 3) }
    {
        self.version
    }

    /// The size of the map, in navcells.
    pub fn size(&self) -> Size
        ensures { result ≡ self.now.size }
    {
        self.size
    }

    /// How many callers the map has, from 1 to 64.
    pub fn callers(&self) -> u8
        ensures callers { result ≡ self.now.callers }
        ensures limits { (1 ≤ result) × (result ≤ MAX_CALLERS) }
    {
        self.callers
    }

    /// The passability classes of the map.
    pub fn classes(&self) -> &ClassTable
        ensures { result.now ≡ self.now.classes }
    {
        &self.classes
    }

    /// The rectangles that are impassable from the start, all of them inside the map.
    pub fn base(&self) -> &BaseRects
        ensures base { result.now ≡ self.now.base }
        ensures inside { All (λ entry. IsRectInside self.now.size entry.0) result.now }
    {
        &self.base
    }

    /// The same map once more.
    pub fn copy(&self, alloc: Global) -> Result<MapSpec, NoMemory>
        ensures { IfOk result (λ made. made ≡ self.now) }
    {
        let classes = self.classes.copy(alloc)?;
        let base = self.base.copy(alloc)?;
        Ok(MapSpec {
            base,
            classes,
            size: self.size,
            version: self.version,
            callers: self.callers,
        })
    }
}

/// Whether the version is 1 to 3 and there are 1 to 64 callers.
fn is_in_limits(version: u8, callers: u8) -> bool
    ensures { IsTrue result ↔ ((1 ≤ version) × (version ≤ 3) × (1 ≤ callers) × (callers ≤ MAX_CALLERS)) }
{
    1 <= version && version <= NEWEST_VERSION && 1 <= callers && callers <= MAX_CALLERS
}

/// Whether each rectangle has a cell and lies inside a map of this size.
fn are_inside(base: &[(Rect, u16)], size: Size) -> bool
    ensures { IsTrue result ↔ All (λ entry. IsRectInside size entry.0) base.now }
{
    base.iter().all(|entry| entry.0.is_inside(size))
}
