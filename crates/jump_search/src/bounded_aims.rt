//! An aim that keeps its rectangle.
use nav_types::{Aim, Cell, Rect, Size};

/// An aim with its rectangle, so that neither the rectangle nor a cell outside of it is asked for again.
#[derive(Drop)]
pub(crate) struct BoundedAim<'a, A: Aim> {
    pub aim: &'a A,
    pub rect: Rect,
}

impl<'a, A: Aim> Aim for BoundedAim<'a, A> {
    ghost use Rattle.nav_types.specs.Frames.{IsFrame};

    ghost sound = { λ framed size. A.sound framed.aim.now size
        × IsFrame (A.framed framed.aim.now size) size framed.rect };

    ghost hit = { λ framed size. A.hit framed.aim.now size };

    ghost framed = { λ framed size. A.framed framed.aim.now size };

    fn hits(&self, size: Size, cell: Cell) -> bool {
        if !self.rect.contains(cell) {
            return false;
        }
        self.aim.hits(size, cell)
    }

    fn bounds(&self, _size: Size) -> Rect {
        self.rect
    }

    ghost hits_framed = { λ framed size cell sound inside hit.
        A.hits_framed framed.aim.now size cell sound.0 inside hit };
}
