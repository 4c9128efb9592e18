//! The board from which workers draw jobs, and the seats that may draw.
ghost use Rattle.std.specs.Prelude.{◌≡◌, ◌+◌, ◌-◌, ◌/◌, ◌^◌, ◌<◌, ◌≤◌, ◌++◌, ◌∷◌, ◌||◌, [], true, false, IfOk, All};
ghost use Rattle.nav_types.specs.Counting.{Lists};

use crate::rule::{Draw, EachOnce, Halves, SeatView};
use atomic_table::{Seat as Place, Table};
use nav_types::NoMemory;
use std::alloc::Global;
use std::marker::Model;
use std::snapshot::Snapshot;

/// The shares of all seats of a board together. A seat has at least 1, so a board has at most 64 seats at a time.
pub const WHOLE_SHARE: u64 = 64;

/// A board that hands out the jobs 0, 1, 2 and so on below their number, each once. Many threads may share it.
/// Contracts see a `Board` of `specs/Boards.antt`: which board it is, and its number of jobs. The rule that its word
/// keeps is `KeepsBoard` of `specs/inner/ClaimWord.antt`.
#[derive(Drop)]
pub struct Claims {
    table: Table<(), SeatView, u64, EachOnce, Global>,
    jobs: u64,
}

impl Model for Claims {
    ghost use Rattle.std.specs.Prelude.{◌≡◌};
    ghost use Rattle.claim_board.specs.Boards.{Board};

    ghost Value = { Board };

    ghost view = { λ c. record { word = c.table.shared.table_id; jobs = c.jobs } };

    ghost invariant = { λ c. (c.table.shared.table_id.words ≡ 1) × (c.table.shared.table_id.slots ≡ 0) };
}

/// The right to draw jobs of one board. It takes no bytes, and may go to another thread.
/// Contracts see a `SeatState` of `specs/Boards.antt`: its board, its share, the jobs that it drew, in
/// order, and whether it has ended.
#[derive(Drop)]
pub struct Seat {
    place: Place<(), SeatView>,
}

impl Model for Seat {
    ghost use Rattle.std.specs.Prelude.{◌≡◌, ◌<◌, []};
    ghost use Rattle.claim_board.specs.Boards.{SeatState};
    ghost use Rattle.claim_board.specs.inner.ClaimWord.{seat_state};

    ghost Value = { SeatState };

    ghost view = { λ s. seat_state s.place.table_id s.place.me.0 };

    ghost invariant = { λ s. (s.place.me.1 ≡ []) × (0 < s.place.me.0.share) };
}

/// What a seat gets when it claims: a job, or that there is none left.
#[derive(Drop)]
pub enum Drawn {
    /// The number of the job, counted from 0, and the seat.
    Job(u64, Seat),
    /// All jobs are drawn, and the seat has ended.
    Ended(Seat),
}

/// All jobs that the seats of a board drew. It takes no bytes. Contracts see their list.
#[derive(Drop)]
pub struct Drawings {
    seat: Snapshot<Seat>,
}

impl Model for Drawings {
    ghost use Rattle.std.specs.Prelude.{List, ℕ};

    ghost Value = { List ℕ };

    ghost view = { λ d. d.seat.value.drawn };
}

impl Claims {
    ghost use Rattle.claim_board.specs.Answers.{IfJob, IfEnded};

    /// A board of so many jobs, fewer than 2^32, and its first seat, which has the whole share, has drawn nothing and
    /// has not ended. `NoMemory` where there is none for the word. No other call takes memory.
    pub fn start(alloc: Global, jobs: u64) -> Result<(Claims, Seat), NoMemory>
        requires { jobs < 2 ^ 32 }
        ensures jobs { IfOk result (λ made. made.0.jobs ≡ jobs) }
        ensures board { IfOk result (λ made. made.1.board ≡ made.0) }
        ensures share { IfOk result (λ made. made.1.share ≡ WHOLE_SHARE) }
        ensures list { IfOk result (λ made. made.1.drawn ≡ []) }
        ensures live { IfOk result (λ made. made.1.ended ≡ false) }
    {
        let (table, place) = Table::of_words(alloc, &[0], &jobs)?;
        Ok((Claims { table, jobs }, Seat { place }))
    }

    /// The number of jobs.
    pub fn jobs(&self) -> u64
        ensures { result ≡ self.now.jobs }
    {
        self.jobs
    }

    /// Halves the share of a seat, which is at least 2. The first has the greater half of an odd share, and the list;
    /// the second has drawn nothing. Both have ended exactly where the seat had.
    pub fn split(&self, seat: Seat) -> (Seat, Seat)
        requires own { seat.board ≡ self.now }
        requires share { 2 ≤ seat.share }
        ensures first { result.0 ≡ record seat { share = seat.share - seat.share / 2 } }
        ensures second { result.1 ≡ record seat { share = seat.share / 2; drawn = [] } }
    {
        let Seat { mut place } = seat;
        let other = self.table.shared.split_seat::<Halves>(&mut place);
        (Seat { place }, Seat { place: other })
    }

    /// Draws the next number, by one fetch-add, which waits for nobody. It is a job exactly where it is below the
    /// number of jobs; it is then above each job that the seat drew before, and joins its list. Any other number ends
    /// the seat.
    pub fn claim(&self, seat: Seat) -> Drawn
        requires own { seat.board ≡ self.now }
        requires live { seat.ended ≡ false }
        ensures below { IfJob result (λ job next. job < self.now.jobs) }
        ensures above { IfJob result (λ job next. All (λ earlier. earlier < job) seat.drawn) }
        ensures job { IfJob result (λ job next. next ≡ record seat { drawn = seat.drawn ++ job ∷ [] }) }
        ensures ended { IfEnded result (λ next. next ≡ record seat { ended = true }) }
    {
        let Seat { mut place } = seat;
        let number = self.table.shared.fetch_add::<Draw>(&mut place, 0, 1);
        if number < self.jobs {
            Drawn::Job(number, Seat { place })
        } else {
            Drawn::Ended(Seat { place })
        }
    }

    /// One seat for two: the credits are added, and the second list follows the first. It has ended exactly where one
    /// of the two had.
    pub fn join(&self, a: Seat, b: Seat) -> Seat
        requires first { a.board ≡ self.now }
        requires second { b.board ≡ self.now }
        ensures board { result.board ≡ self.now }
        ensures share { result.share ≡ a.share + b.share }
        ensures list { result.drawn ≡ a.drawn ++ b.drawn }
        ensures ended { result.ended ≡ a.ended || b.ended }
    {
        let Seat { mut place } = a;
        let Seat { place: other } = b;
        self.table.shared.join_seat::<Halves>(&mut place, other);
        Seat { place }
    }

    /// Takes back the whole share, once a seat has ended. The list then has the numbers from 0 up to and without the
    /// number of jobs, each once, and nothing else (`Lists` of `nav_types`).
    pub fn close(self, seat: Seat) -> Drawings
        requires own { seat.board ≡ self }
        requires whole { seat.share ≡ WHOLE_SHARE }
        requires ended { seat.ended ≡ true }
        ensures list { result ≡ seat.drawn }
        ensures all { Lists (λ job. job < self.jobs) result }
    {
        let drawings = Drawings {
            seat: Snapshot::of(&seat),
        };
        let Claims { table, jobs: _ } = self;
        let Seat { place } = seat;
        table.close_with(place).free();
        drawings
    }
}
