//! Maps as numbers.
ghost use Rattle.std.specs.Prelude.{◌≡◌, ◌≤◌, ℕ, List, IfOk, IfSome, IsErrOf, IsNone, IsTrue};
ghost use Rattle.std.specs.List.{AllZip};
ghost use Rattle.nav_types.specs.declared.cells.Rect.{Rect};
ghost use Rattle.nav_types.specs.declared.cells.Size.{Size};
ghost use Rattle.nav_types.specs.declared.limits.TheConstants.{MAX_CALLERS};
ghost use Rattle.class_config.specs.Classes.{is_table};
ghost use Rattle.class_config.specs.declared.table.PassabilityClass.{PassabilityClass};
ghost use Rattle.posts.specs.Maps.{Map};
ghost use Rattle.flat_posts.specs.Maps.{IsClassOf, IsMapOf, IsRectOf, flat_map};

use crate::map_parts::{FlatClass, FlatRect};
use class_config::{ClassRefusal, ClassTable, PassabilityClass};
use nav_types::limits::{MAX_CALLERS, MAX_SIDE};
use nav_types::{Sequence, Size};
use posts::{BaseRects, MapSpec};
use std::alloc::Global;
use std::mem::size_of;

/// The size of a map in navcells, 1 to 2048 each way, and how many callers it has, 1 to 64.
#[repr(C)]
#[derive(Clone, Copy, Debug, PartialEq, Eq)]
pub struct FlatMap {
    pub width: u32,
    pub height: u32,
    pub callers: u32,
}

const _: () = prove!(size_of::<FlatMap>() == 12);

/// Why no map was read.
#[derive(Clone, Copy, Debug, PartialEq, Eq)]
pub enum MapFault {
    /// The numbers are no map.
    NotMap,
    /// There was no memory.
    NoMemory,
}

/// The version of the scripts that have lines for each kind of posts.
const NEWEST_VERSION: u8 = 3;

impl FlatMap {
    /// The map that these numbers are (`IsMapOf`). `NotMap` only where they are none: a side, the number of callers or of
    /// classes, or a clearance is not within its limits, a name is not of the form of a class name or another class has it, a
    /// rectangle does not lie inside the map, or a field that is to be 0 is not.
    pub fn read(
        &self,
        alloc: Global,
        classes: &[FlatClass],
        base: &[FlatRect],
    ) -> Result<MapSpec, MapFault>
        ensures map { IfOk result (IsMapOf self.now classes.now base.now) }
        ensures not_map { IsErrOf result MapFault.NotMap → (map : Map) → ¬ IsMapOf self.now classes.now base.now map }
    {
        let Some((size, callers)) = self.frame() else {
            return Err(MapFault::NotMap);
        };
        let table = table_of(alloc, classes)?;
        let rects = rects_of(alloc, base)?;
        match MapSpec::new(NEWEST_VERSION, size, callers, table, rects) {
            Some(map) => Ok(map),
            None => Err(MapFault::NotMap),
        }
    }

    /// The size and the number of callers, where they are within their greatest.
    fn frame(&self) -> Option<(Size, u8)>
        ensures some { IfSome result (λ frame. self.now ≡ flat_map frame.0 frame.1) }
        ensures none { IsNone result → (size : Size) (callers : ℕ) → callers ≤ MAX_CALLERS
            → ¬ (self.now ≡ flat_map size callers) }
    {
        let most = u32::from(MAX_SIDE);
        if self.width > most || self.height > most || self.callers > u32::from(MAX_CALLERS) {
            return None;
        }
        let size = Size::new(self.width as u16, self.height as u16)?;
        Some((size, self.callers as u8))
    }
}

/// The table of these classes.
fn table_of(alloc: Global, flats: &[FlatClass]) -> Result<ClassTable, MapFault>
    ensures table { IfOk result (AllZip IsClassOf flats.now) }
    ensures limits { IfOk result (λ table. IsTrue (is_table table)) }
    ensures not_map { IsErrOf result MapFault.NotMap → (classes : List PassabilityClass)
        → AllZip IsClassOf flats.now classes → ¬ IsTrue (is_table classes) }
{
    let classes = classes_of(alloc, flats)?;
    match ClassTable::new(alloc, classes.as_slice()) {
        Ok(table) => {
            let _count = table.count(); // its limits
            Ok(table)
        }
        Err(ClassRefusal::NotClasses) => Err(MapFault::NotMap),
        Err(ClassRefusal::NoMemory) => Err(MapFault::NoMemory),
    }
}

/// The classes of these numbers.
fn classes_of(alloc: Global, flats: &[FlatClass]) -> Result<Sequence<PassabilityClass>, MapFault>
    ensures classes { IfOk result (AllZip IsClassOf flats.now) }
    ensures not_map { IsErrOf result MapFault.NotMap → (classes : List PassabilityClass)
        → AllZip IsClassOf flats.now classes → ¬ IsTrue (is_table classes) }
{
    let mut classes = Sequence::new(alloc);
    for flat in flats {
        let Some(class) = flat.read() else {
            return Err(MapFault::NotMap);
        };
        match classes.push(class) {
            Ok(()) => {}
            Err(_) => return Err(MapFault::NoMemory),
        }
    }
    Ok(classes)
}

/// The rectangles of these numbers, with their masks.
fn rects_of(alloc: Global, flats: &[FlatRect]) -> Result<BaseRects, MapFault>
    ensures rects { IfOk result (AllZip IsRectOf flats.now) }
    ensures not_map { IsErrOf result MapFault.NotMap → (rects : List (Rect × ℕ)) → ¬ AllZip IsRectOf flats.now rects }
{
    let mut rects = Sequence::new(alloc);
    for flat in flats {
        let Some(entry) = flat.read() else {
            return Err(MapFault::NotMap);
        };
        match rects.push(entry) {
            Ok(()) => {}
            Err(_) => return Err(MapFault::NoMemory),
        }
    }
    Ok(rects)
}
