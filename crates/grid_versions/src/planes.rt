//! Planes that are there for each class of a map.
ghost use Rattle.std.specs.Prelude.{◌≡◌, None, Some, IsSome, slice_index_or};

use class_planes::{ClassPlane, Planes};
use nav_types::Class;

/// The plane of a class that has one.
pub fn plane_of(planes: &Planes, class: Class) -> &ClassPlane
    requires { IsSome (slice_index_or planes.now class None) }
    ensures { slice_index_or planes.now class None ≡ Some result.now }
{
    match planes.plane(class) {
        Some(plane) => plane,
        None => unreachable!(),
    }
}
