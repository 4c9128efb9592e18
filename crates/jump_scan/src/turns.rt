//! Directions beside a direction.
ghost use Rattle.std.specs.Prelude.{◌≡◌};
ghost use Rattle.jump_scan.specs.declared.turns.Side.TheVariants as Side;
ghost use Rattle.jump_scan.specs.Turns.{ahead_to, aside_to};

use nav_types::Dir;

/// A side of a direction.
#[derive(Clone, Copy, Debug, PartialEq, Eq)]
pub enum Side {
    Left,
    Right,
}

/// The direction an eighth of a turn to the side: of N it is NW to the left.
pub fn ahead_to(side: Side, dir: Dir) -> Dir
    ensures { result ≡ ahead_to side dir }
{
    match side {
        Side::Left => left(dir),
        Side::Right => right(dir),
    }
}

fn left(dir: Dir) -> Dir
    ensures { result ≡ ahead_to Side.Left dir }
{
    match dir {
        Dir::N => Dir::NW,
        Dir::NW => Dir::W,
        Dir::W => Dir::SW,
        Dir::SW => Dir::S,
        Dir::S => Dir::SE,
        Dir::SE => Dir::E,
        Dir::E => Dir::NE,
        Dir::NE => Dir::N,
    }
}

fn right(dir: Dir) -> Dir
    ensures { result ≡ ahead_to Side.Right dir }
{
    match dir {
        Dir::N => Dir::NE,
        Dir::NE => Dir::E,
        Dir::E => Dir::SE,
        Dir::SE => Dir::S,
        Dir::S => Dir::SW,
        Dir::SW => Dir::W,
        Dir::W => Dir::NW,
        Dir::NW => Dir::N,
    }
}

/// The direction a quarter of a turn to the side: of N it is W to the left.
pub fn aside_to(side: Side, dir: Dir) -> Dir
    ensures { result ≡ aside_to side dir }
{
    ahead_to(side, ahead_to(side, dir))
}
