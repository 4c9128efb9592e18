//! Bounds to the nearest of several cells.
ghost use Rattle.std.specs.Prelude.{◌≡◌, ◌<◌, ◌^◌};
ghost use Rattle.landmarks.specs.Spans.{IsSpanOf, IsWidened, span_bound};

use crate::tables::Landmarks;
use crate::units::{MAX_TABLES, UNIT_COST};
use nav_types::Cell;

/// For each table the least and the greatest of the numbers that some cells have.
#[derive(Clone, Copy, Debug, PartialEq, Eq)]
pub struct NumberSpan {
    pub least: [u16; MAX_TABLES],
    pub greatest: [u16; MAX_TABLES],
}

impl Landmarks {
    /// The span of one cell.
    pub fn span_of(&self, cell: Cell) -> NumberSpan
        ensures { IsSpanOf self.now cell result }
    {
        let numbers = self.numbers_of(cell);
        let mut least = [0; MAX_TABLES];
        for table in 0..MAX_TABLES {
            least[table] = numbers[table];
        }
        NumberSpan {
            least,
            greatest: least,
        }
    }

    /// The span, widened by as much as the numbers of one cell more want.
    pub fn widened(&self, span: &NumberSpan, cell: Cell) -> NumberSpan
        ensures { IsWidened self.now cell span.now result }
    {
        let numbers = self.numbers_of(cell);
        let mut least = [0; MAX_TABLES];
        let mut greatest = [0; MAX_TABLES];
        for table in 0..MAX_TABLES {
            least[table] = span.least[table].min(numbers[table]);
            greatest[table] = span.greatest[table].max(numbers[table]);
        }
        NumberSpan { least, greatest }
    }

    /// What a walk from the cell to the nearest of the cells of a span costs at least, where the tables are gentle.
    #[inline(always)]
    pub fn at_least_to(&self, from: Cell, span: &NumberSpan) -> u64
        ensures value { result ≡ span_bound self.now span.now from }
        ensures few { result < 2 ^ 40 }
    {
        let numbers = self.numbers_of(from);
        let mut most: u16 = 0;
        for table in 0..MAX_TABLES {
            let number = numbers[table];
            let below = span.least[table].saturating_sub(number);
            let above = number.saturating_sub(span.greatest[table]);
            most = most.max(below.max(above));
        }
        UNIT_COST * most as u64
    }
}
