//! Segments between the middles of two cells, and the cells that they touch: line of sight.
ghost use Rattle.std.specs.Prelude.{ℕ, ◌≡◌, ◌+◌, ◌*◌, ◌<◌, ◌≤◌, ◌↔◌, IfSome, IfNone, IsTrue, IsFalse};
ghost use Rattle.nav_types.specs.declared.limits.TheConstants.{MAX_SIDE};
ghost use Rattle.nav_types.specs.Cells.{IsInside};
ghost use Rattle.nav_types.specs.Lines.{cell_on, line_on, place_on};
ghost use Rattle.walks.specs.Waypoints.{IsInGrid};
ghost use Rattle.line_smooth.specs.Segments.{gap, Touches, IsClear};
ghost use Rattle.line_smooth.specs.inner.Lines.{IsBetween};

use nav_types::{Axis, Cell, Class, FreeCells, cell_on, line_on, place_on};

/// The places of a line from the first to the last, both of them in it.
#[derive(Clone, Copy)]
struct TouchedSpan {
    first: u16,
    last: u16,
}

/// The segment between the middles of two cells, with the axis along which it is looked at line by line.
#[derive(Clone, Copy)]
struct Segment {
    axis: Axis,
    from: Cell,
    to: Cell,
}

/// How far apart two columns or two rows lie.
#[inline(always)]
fn gap(a: u16, b: u16) -> u32
    ensures { result ≡ gap a b }
{
    u32::from(if a < b { b - a } else { a - b })
}

/// Whether a column or a row is one of two others or lies between them.
#[inline(always)]
fn is_between(a: u16, b: u16, at: u16) -> bool
    ensures { IsTrue result ↔ IsBetween a b at }
{
    if a < b {
        a <= at && at <= b
    } else {
        b <= at && at <= a
    }
}

/// The line so many lines across from one line to another.
#[inline(always)]
fn line_across(from: u16, to: u16, across: u32) -> u16
    requires { across ≤ gap from to }
    ensures between { IsBetween from to result }
    ensures across { gap from result ≡ across }
{
    let across = across as u16;
    if from < to {
        from + across
    } else {
        from - across
    }
}

/// Whether the segment between the middles of two cells touches the cell.
#[inline(always)]
pub(crate) fn touches(from: Cell, to: Cell, cell: Cell) -> bool
    requires from { IsInGrid from }
    requires to { IsInGrid to }
    ensures { IsTrue result ↔ Touches from to cell }
{
    if !is_between(from.i, to.i, cell.i) || !is_between(from.j, to.j, cell.j) {
        return false;
    }
    let wide = gap(from.i, to.i);
    let high = gap(from.j, to.j);
    is_near(wide, high, gap(from.i, cell.i), gap(from.j, cell.j))
}

/// Whether a place so far along and so far across lies near enough to a segment so wide and high to be touched.
#[inline(always)]
fn is_near(wide: u32, high: u32, east: u32, north: u32) -> bool
    requires wide { wide < MAX_SIDE }
    requires high { high < MAX_SIDE }
    requires east { east ≤ wide }
    requires north { north ≤ high }
    ensures { IsTrue result ↔ (2 * gap (wide * north) (high * east) ≤ wide + high) }
{
    let up = wide * north;
    let along = high * east;
    let apart = if up < along { along - up } else { up - along };
    2 * apart <= wide + high
}

/// How far along a segment of so many places along and across the touched places of a line so far across lie.
#[inline(always)]
fn touched(long: u32, short: u32, across: u32) -> TouchedSpan
    requires long { long < MAX_SIDE }
    requires short { short < MAX_SIDE }
    requires across { across ≤ short }
    ensures within { result.last ≤ long }
    ensures exact { (along : ℕ) → along ≤ long
        → (2 * gap (long * across) (short * along) ≤ long + short) ↔ ((result.first ≤ along) × (along ≤ result.last)) }
{
    if short == 0 {
        return TouchedSpan {
            first: 0,
            last: long as u16,
        };
    }
    let middle = 2 * long * across;
    let sides = long + short;
    let unit = 2 * short;
    let first = (middle.saturating_sub(sides) + (unit - 1)) / unit;
    let last = long.min((middle + sides) / unit);
    TouchedSpan {
        first: first as u16,
        last: last as u16,
    }
}

impl Segment {
    /// The segment, along its longer side: so it touches no more lines than it needs.
    #[inline(always)]
    fn new(from: Cell, to: Cell) -> Segment
        ensures from { result.from ≡ from }
        ensures to { result.to ≡ to }
        ensures along { gap (line_on result.axis from) (line_on result.axis to)
            ≤ gap (place_on result.axis from) (place_on result.axis to) }
    {
        let axis = if gap(from.i, to.i) < gap(from.j, to.j) {
            Axis::Column
        } else {
            Axis::Row
        };
        Segment { axis, from, to }
    }

    /// The places of a line between its two cells, so far across from the first, that the segment touches.
    #[inline(always)]
    fn span(self, line: u16, across: u32) -> TouchedSpan
        requires from { IsInGrid self.from }
        requires to { IsInGrid self.to }
        requires between { IsBetween (line_on self.axis self.from) (line_on self.axis self.to) line }
        requires across { gap (line_on self.axis self.from) line ≡ across }
        ensures some { result.first ≤ result.last }
        ensures exact { (place : ℕ) → Touches self.from self.to (cell_on self.axis line place)
            ↔ ((result.first ≤ place) × (place ≤ result.last)) }
    {
        let from = place_on(self.axis, self.from);
        let to = place_on(self.axis, self.to);
        let short = gap(line_on(self.axis, self.from), line_on(self.axis, self.to));
        let along = touched(gap(from, to), short, across);
        if from <= to {
            TouchedSpan {
                first: from + along.first,
                last: from + along.last,
            }
        } else {
            TouchedSpan {
                first: from - along.last,
                last: from - along.first,
            }
        }
    }

    /// The first blocked cell of a line so far across that the segment touches. None exactly where there is none.
    #[inline(always)]
    fn blocker_on<V: FreeCells>(
        self,
        view: &V,
        class: Class,
        line: u16,
        across: u32,
    ) -> Option<Cell>
        requires class { class < V.class_count view.now }
        requires from { IsInside (V.extent view.now) self.from }
        requires to { IsInside (V.extent view.now) self.to }
        requires between { IsBetween (line_on self.axis self.from) (line_on self.axis self.to) line }
        requires across { gap (line_on self.axis self.from) line ≡ across }
        ensures touched { IfSome result (Touches self.from self.to) }
        ensures blocked { IfSome result (λ cell. IsFalse (V.passes view.now class cell)) }
        ensures none { IfNone result ((place : ℕ) → Touches self.from self.to (cell_on self.axis line place)
            → IsTrue (V.passes view.now class (cell_on self.axis line place))) }
    {
        let span = self.span(line, across);
        let place = view.next_blocked(class, self.axis, cell_on(self.axis, line, span.first));
        if place <= span.last {
            Some(cell_on(self.axis, line, place))
        } else {
            None
        }
    }
}

/// A blocked cell that the segment between the middles of two cells touches. None exactly where the segment is clear.
///
/// It looks at each row that the segment touches once, or at each column where the segment is higher than wide, from the
/// first cell on: what blocks near there blocks other segments from that cell too.
pub fn blocker<V: FreeCells>(view: &V, class: Class, from: Cell, to: Cell) -> Option<Cell>
    requires class { class < V.class_count view.now }
    requires from { IsInside (V.extent view.now) from }
    requires to { IsInside (V.extent view.now) to }
    ensures touched { IfSome result (Touches from to) }
    ensures blocked { IfSome result (λ cell. IsFalse (V.passes view.now class cell)) }
    ensures none { IfNone result (IsClear (V.passes view.now class) from to) }
{
    let segment = Segment::new(from, to);
    let start = line_on(segment.axis, from);
    let end = line_on(segment.axis, to);
    for across in 0..gap(start, end) + 1 {
        let line = line_across(start, end, across);
        if let Some(cell) = segment.blocker_on(view, class, line, across) {
            return Some(cell);
        }
    }
    None
}

/// Whether each cell that the segment between the middles of two cells touches is passable for the class.
pub fn clear<V: FreeCells>(view: &V, class: Class, from: Cell, to: Cell) -> bool
    requires class { class < V.class_count view.now }
    requires from { IsInside (V.extent view.now) from }
    requires to { IsInside (V.extent view.now) to }
    ensures { IsTrue result ↔ IsClear (V.passes view.now class) from to }
{
    blocker(view, class, from, to).is_none()
}
