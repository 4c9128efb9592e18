//! Straight directions by their axis and their way.
ghost use Rattle.std.specs.Prelude.{◌≡◌};
ghost use Rattle.nav_types.specs.declared.straights.Heading.TheVariants as Heading;
ghost use Rattle.nav_types.specs.Straights.{straight_dir, diagonal_dir, heading_dir};
ghost use Rattle.nav_types.specs.Directions.{row_part, column_part};

use crate::directions::Dir;

/// Which way the lines of a map go: a row to the east, a column to the north.
#[derive(Clone, Copy, Debug, PartialEq, Eq)]
pub enum Axis {
    Row,
    Column,
}

/// The way along a line: to the places of higher numbers, or of lower ones.
#[derive(Clone, Copy, Debug, PartialEq, Eq)]
pub enum Way {
    Up,
    Down,
}

/// A straight direction: E and W go up and down a row, N and S up and down a column.
#[derive(Clone, Copy, Debug, PartialEq, Eq)]
pub struct Straight {
    pub axis: Axis,
    pub way: Way,
}

/// A diagonal direction by its ways over the columns and over the rows: NE goes up both.
#[derive(Clone, Copy, Debug, PartialEq, Eq)]
pub struct Diagonal {
    /// The way along the row, over the columns.
    pub columns: Way,
    /// The way along the column, over the rows.
    pub rows: Way,
}

/// A direction as a straight one or a diagonal one.
#[derive(Clone, Copy, Debug, PartialEq, Eq)]
pub enum Heading {
    Straight(Straight),
    Diagonal(Diagonal),
}

impl Straight {
    /// The direction.
    #[inline(always)]
    pub fn dir(self) -> Dir
        ensures { result ≡ straight_dir self }
    {
        match (self.axis, self.way) {
            (Axis::Row, Way::Up) => Dir::E,
            (Axis::Row, Way::Down) => Dir::W,
            (Axis::Column, Way::Up) => Dir::N,
            (Axis::Column, Way::Down) => Dir::S,
        }
    }
}

impl Diagonal {
    /// The direction.
    #[inline(always)]
    pub fn dir(self) -> Dir
        ensures { result ≡ diagonal_dir self }
    {
        match (self.columns, self.rows) {
            (Way::Up, Way::Up) => Dir::NE,
            (Way::Up, Way::Down) => Dir::SE,
            (Way::Down, Way::Up) => Dir::NW,
            (Way::Down, Way::Down) => Dir::SW,
        }
    }

    /// The straight part of the direction along the row: of NE it is E.
    #[inline(always)]
    pub fn row_part(self) -> Straight
        ensures { straight_dir result ≡ row_part (diagonal_dir self) }
    {
        Straight {
            axis: Axis::Row,
            way: self.columns,
        }
    }

    /// The straight part of the direction along the column: of NE it is N.
    #[inline(always)]
    pub fn column_part(self) -> Straight
        ensures { straight_dir result ≡ column_part (diagonal_dir self) }
    {
        Straight {
            axis: Axis::Column,
            way: self.rows,
        }
    }
}

impl Dir {
    /// The direction as a straight one or a diagonal one.
    #[inline(always)]
    pub fn heading(self) -> Heading
        ensures { heading_dir result ≡ self }
    {
        match self {
            Dir::N => to_straight(Axis::Column, Way::Up),
            Dir::E => to_straight(Axis::Row, Way::Up),
            Dir::S => to_straight(Axis::Column, Way::Down),
            Dir::W => to_straight(Axis::Row, Way::Down),
            Dir::NE => to_diagonal(Way::Up, Way::Up),
            Dir::SE => to_diagonal(Way::Up, Way::Down),
            Dir::SW => to_diagonal(Way::Down, Way::Down),
            Dir::NW => to_diagonal(Way::Down, Way::Up),
        }
    }

    /// The straight part of the direction along the row; a straight direction is its own.
    #[inline(always)]
    pub fn row_part(self) -> Dir
        ensures { result ≡ row_part self }
    {
        match self {
            Dir::NE | Dir::SE => Dir::E,
            Dir::NW | Dir::SW => Dir::W,
            Dir::N | Dir::E | Dir::S | Dir::W => self,
        }
    }

    /// The straight part of the direction along the column; a straight direction is its own.
    #[inline(always)]
    pub fn column_part(self) -> Dir
        ensures { result ≡ column_part self }
    {
        match self {
            Dir::NE | Dir::NW => Dir::N,
            Dir::SE | Dir::SW => Dir::S,
            Dir::N | Dir::E | Dir::S | Dir::W => self,
        }
    }
}

#[inline(always)]
fn to_straight(axis: Axis, way: Way) -> Heading
    ensures { result ≡ Heading.Straight (record { axis = axis; way = way }) }
{
    Heading::Straight(Straight { axis, way })
}

#[inline(always)]
fn to_diagonal(columns: Way, rows: Way) -> Heading
    ensures { result ≡ Heading.Diagonal (record { columns = columns; rows = rows }) }
{
    Heading::Diagonal(Diagonal { columns, rows })
}
