//! The bands of lines that rectangles may touch.
ghost use Rattle.std.specs.Prelude.{ℕ, ◌≡◌, ◌<◌, ◌≤◌, ◌+◌, ◌/◌, All};
ghost use Rattle.class_planes.specs.inner.Spans.{IsLineAbout, line_range};

use crate::lines::BAND;
use nav_types::{Axis, Rect};

/// Bands from one up to and without another.
#[derive(Clone, Copy)]
pub struct BandSpan {
    pub from: u16,
    pub to: u16,
}

/// Among so many bands of lines along the axis those from the first to the last that have a line of a rectangle, or one
/// beside it.
pub fn bands_about(rects: &[Rect], axis: Axis, bands: u16) -> BandSpan
    requires few { bands ≤ 2048 }
    ensures ordered { result.from ≤ result.to }
    ensures within { result.to ≤ bands }
    ensures about { (n : ℕ) → n / 32 < bands → (result.from ≤ n / 32 → n / 32 < result.to → ⊥)
        → All (λ rect. IsLineAbout axis rect n → ⊥) rects.now }
{
    let mut span = BandSpan { from: bands, to: 0 };
    for rect in rects {
        span = widened(span, range_of(*rect, axis));
    }
    let to = span.to.min(bands);
    BandSpan {
        from: span.from.min(to),
        to,
    }
}

/// The first and the last line along the axis that the rectangle meets.
fn range_of(rect: Rect, axis: Axis) -> (u16, u16)
    ensures { result ≡ line_range axis rect }
{
    match axis {
        Axis::Row => (rect.j0, rect.j1),
        Axis::Column => (rect.i0, rect.i1),
    }
}

/// The span with the bands of the lines from the first to the last one, and of those beside them.
fn widened(span: BandSpan, range: (u16, u16)) -> BandSpan
    ensures from { result.from ≤ span.from }
    ensures to { span.to ≤ result.to }
    ensures about { (n : ℕ) → n / 32 < 2048 → range.0 ≤ n + 1 → n ≤ range.1 + 1
        → (result.from ≤ n / 32) × (n / 32 < result.to) }
{
    BandSpan {
        from: span.from.min(range.0.saturating_sub(1) / BAND),
        to: span.to.max(range.1.saturating_add(1) / BAND + 1),
    }
}
