//! The rectangles of base lines.
ghost use Rattle.std.specs.Prelude.{◌≡◌, All, IfOk, IfSome, map};
ghost use Rattle.nav_types.specs.Cells.{IsRectInside};
ghost use Rattle.serde_json.specs.View.{view};
ghost use Rattle.script_text.specs.Causes.{is_no_entry};
ghost use Rattle.script_text.specs.Forms as form;

use crate::forms::values::{has_items, whole_at};
use nav_types::{NoMemory, Rect, Size};
use posts::BaseRects;
use serde_json::Value;
use std::alloc::Global;

/// What the items of a base line give, where each gives a rectangle of the map with its mask.
pub(crate) fn entries_of(
    alloc: Global,
    size: Size,
    items: &[Value],
) -> Result<Option<BaseRects>, NoMemory>
    ensures rects { IfOk result (λ made. made ≡ form.each (form.entry_of size) (map view items.now)) }
    ensures inside { IfOk result (λ made. IfSome made (All (λ entry. IsRectInside size entry.0))) }
{
    let mut rects = BaseRects::new(alloc);
    for item in items {
        let Some(entry) = entry_of(size, item) else {
            return Ok(None);
        };
        rects.push(entry)?;
    }
    Ok(Some(rects))
}

/// A rectangle of the map with its mask: an array of five whole numbers.
#[tactic(auto, unfolding(crate::specs::Forms::entry_of))]
fn entry_of(size: Size, value: &Value) -> Option<(Rect, u16)>
    ensures entry { result ≡ form.entry_of size (view value.now) }
    ensures inside { IfSome result (λ entry. IsRectInside size entry.0) }
{
    if !has_items(5, value) {
        return None;
    }
    let (Some(i0), Some(j0)) = (whole_at(0, value), whole_at(1, value)) else {
        return None;
    };
    let (Some(i1), Some(j1)) = (whole_at(2, value), whole_at(3, value)) else {
        return None;
    };
    match whole_at(4, value) {
        Some(mask) => entry_in(size, i0, j0, i1, j1, mask),
        None => None,
    }
}

/// Whether the value is no rectangle of the map with its mask.
pub(crate) fn is_no_entry(size: Size, value: &Value) -> bool
    ensures { result ≡ is_no_entry size (view value.now) }
{
    entry_of(size, value).is_none()
}

/// A rectangle of the map with its mask, where the numbers are in their limits.
fn entry_in(size: Size, i0: u64, j0: u64, i1: u64, j1: u64, mask: u64) -> Option<(Rect, u16)>
    ensures entry { result ≡ form.entry_in size i0 j0 i1 j1 mask }
    ensures inside { IfSome result (λ entry. IsRectInside size entry.0) }
{
    let columns = i0 <= i1 && i1 < u64::from(size.w);
    let rows = j0 <= j1 && j1 < u64::from(size.h);
    if columns && rows && mask <= u64::from(u16::MAX) {
        let rect = Rect {
            i0: i0 as u16,
            j0: j0 as u16,
            i1: i1 as u16,
            j1: j1 as u16,
        };
        Some((rect, mask as u16))
    } else {
        None
    }
}
