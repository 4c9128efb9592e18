//! The rule that the word of a board keeps, and what a seat may do to it.
use atomic_table::{Join, Play, Split, TableRule};
use std::collections::LinkedList;

// What a seat knows: its share, the number of jobs of the board, the numbers that it drew, in order, and
// whether one of them was no job. No value of it is made.
pub(crate) struct SeatView {
    pub share: u64,
    pub jobs: u64,
    pub drawn: LinkedList<u64>,
    pub ended: bool,
}

// The word is the next number to be drawn. The key is the number of jobs.
pub(crate) struct EachOnce;

impl TableRule<(), SeatView, u64> for EachOnce {
    ghost use Rattle.claim_board.specs.inner.ClaimWord.{KeepsBoard, first_view};

    ghost holds = { KeepsBoard };

    ghost first = { first_view };
}

// One number is drawn.
pub(crate) struct Draw;

impl Play<(), SeatView> for Draw {
    ghost use Rattle.claim_board.specs.inner.ClaimWord.{Draws};

    ghost then = { λ step before found after. Draws before found after };
}

// A view is cut in two, or two are put together.
pub(crate) struct Halves;

impl Split<SeatView> for Halves {
    ghost use Rattle.claim_board.specs.inner.ClaimWord.{first_half, second_half};

    ghost left = { first_half };

    ghost right = { second_half };
}

impl Join<SeatView> for Halves {
    ghost use Rattle.claim_board.specs.inner.ClaimWord.{joined, spent_view};

    ghost both = { joined };

    ghost spent = { spent_view };
}
