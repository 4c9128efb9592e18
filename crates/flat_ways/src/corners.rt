//! Walks that are given by their waypoints.
ghost use Rattle.std.specs.Prelude.{◌<◌, ◌↔◌, IsTrue};
ghost use Rattle.nav_types.specs.Cells.{IsInside};
ghost use Rattle.line_smooth.specs.Smoothed.{AreCorners};

use crate::legs::{goes_on, leg};
use nav_types::{Cell, Class, View};

/// Whether the cells are the waypoints of a legal walk from the start (`AreCorners`). It looks at each cell of the walk once,
/// and takes no memory.
///
/// A walk has legs of one or more legal steps in one direction, and each leads from one of its waypoints to the next, in
/// another direction than the leg before. No waypoints are those of the walk that stays.
pub fn are_corners<V: View>(view: &V, class: Class, start: Cell, corners: &[Cell]) -> bool
    requires class { class < V.class_count view.now }
    requires start { IsInside (V.extent view.now) start }
    ensures { IsTrue result ↔ AreCorners (V.passes view.now class) start corners.now }
{
    let mut at = start;
    let mut before = None;
    for corner in corners {
        let Some(dir) = leg(view, class, at, *corner) else {
            return false;
        };
        if goes_on(before, dir) {
            return false;
        }
        before = Some(dir);
        at = *corner;
    }
    true
}
