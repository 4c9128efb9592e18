//! The jump search, over a map that answers runs or over any view.
ghost use Rattle.std.specs.Prelude.{◌≡◌, ◌<◌, ◌+◌, ℕ, Bool, IsTrue, IfOk, IfSome};
ghost use Rattle.nav_types.specs.declared.cells.Cell.{Cell};
ghost use Rattle.nav_types.specs.declared.cells.Rect.{Rect};
ghost use Rattle.walks.specs.Chosen.{IsAnswer};
ghost use Rattle.nav_types.specs.Counting.{Counts};
ghost use Rattle.jump_search.specs.Estimates.{IsEstimate};
ghost use Rattle.jump_search.specs.JumpStates.{octile_to, CanSearch, IsOpened, CountsOpened, IsWithinOpened};
ghost use Rattle.jump_search.specs.Questions.{Asked, CountsFor, IsAnswerTo, Traces};
ghost use Rattle.jump_search.specs.inner.Traced.{IsTraceable};

use crate::bounded_aims::BoundedAim;
use crate::estimates::{Estimate, OctileEstimate};
use crate::frontier::Frontier;
use crate::looks::looked;
use crate::near_searches::{found_within, octile_of, uncounted_within};
use crate::nodes::Nodes;
use crate::problems::{Guided, Problem, Question};
use crate::searching::{Best, searched};
use crate::tracing::traced;
use jump_scan::{CellRuns, Runs};
use nav_types::{Aim, Cell, Class, Cost, NoMemory, Ticks, View};
use std::alloc::Global;
use std::marker::Brand;
use std::sync::ledger::{Blank, Ledger};
use walks::{Found, Waypoints};

/// For how many nodes a pool has room that is small.
const SMALL: usize = 262_144;

/// Room that searches keep from one to the next: what an earlier search in the same pool has taken, a later one does not
/// take again. What a search answers does not depend on those before it, also where memory ran out in one of them.
#[derive(Drop)]
pub struct Pool {
    pub(crate) frontier: Frontier,
    pub(crate) opened: u64,
}

impl Pool {
    /// A pool in which nothing was searched.
    pub fn new(alloc: Global) -> Result<Pool, NoMemory> {
        Ok(Pool {
            frontier: Frontier::new(alloc)?,
            opened: 0,
        })
    }

    /// How many jump states the last find in the pool opened, which no answer depends on; 0 where its start was hit. A trace,
    /// and a find in which memory ran out, leave it as it is.
    pub fn opened(&self) -> u64 {
        self.opened
    }

    /// Whether the room that the pool keeps is for 2^18 jump states at most, some 16 MB with all that goes with them. Where
    /// many pools are kept, those that are not small are better let go.
    pub fn is_small(&self) -> bool {
        self.frontier.nodes.room() <= SMALL
    }
}

/// What a jump search finds, and how many jump states it opened.
#[derive(Debug, Drop)]
pub struct Traced {
    pub found: Found,
    pub opened: u64,
}

/// What a search that has ended with a best hit has found, traced back over its nodes.
pub(crate) fn found(
    alloc: Global,
    nodes: &Nodes,
    start: Cell,
    best: Best,
) -> Result<Found, NoMemory>
    requires { (all : Bool) × ((passes : Cell → Bool) × ((hit : Cell → Bool) × ((ahead : Cell → ℕ)
        × IsTraceable all passes hit start ahead best.cell best.cost nodes.now))) }
    ensures answer { IfOk result (λ found. (all : Bool) (passes hit : Cell → Bool) (ahead : Cell → ℕ)
        → IsTraceable all passes hit start ahead best.cell best.cost nodes.now
        → IsAnswer passes start hit found.end found.cost.0 found.waypoints) }
    ensures cost { IfOk result (λ found. found.cost.0 ≡ best.cost) }
{
    let waypoints = traced(alloc, nodes, start, best)?;
    Ok(Found {
        end: best.cell,
        cost: Cost(best.cost),
        waypoints,
    })
}

/// What a find answers at once: where the start is hit, the start itself, for nothing.
pub(crate) fn found_at_start<R: Runs, A: Aim>(
    alloc: Global,
    question: &Question<'_, R, A>,
) -> Option<Found>
    requires { CanSearch (R.passes question.now.runs.now question.now.class)
        (A.hit question.now.aim.now (R.extent question.now.runs.now))
        (A.sound question.now.aim.now (R.extent question.now.runs.now)) question.now.start }
    ensures answer { IfSome result (λ found. IsAnswer (R.passes question.now.runs.now question.now.class)
        question.now.start (A.hit question.now.aim.now (R.extent question.now.runs.now))
        found.end found.cost.0 found.waypoints) }
    ensures free { IfSome result (λ found. found.cost.0 ≡ 0) }
{
    let start = question.start;
    if !question.aim.hits(question.runs.size(), start) {
        return None;
    }
    Some(Found {
        end: start,
        cost: Cost(0),
        waypoints: Waypoints::new(alloc),
    })
}

/// The answer of a search by an estimate, which is for all jump states within the cost or not.
fn answered<R: Runs, A: Aim, E: Estimate, L: Ledger, const ALL: bool>(
    frontier: &mut Frontier,
    alloc: Global,
    question: &Question<'_, R, A>,
    ahead: &E,
    ticks: &mut Ticks<L>,
) -> Result<Traced, NoMemory>
    requires class { question.now.class < R.class_count question.now.runs.now }
    requires search { CanSearch (R.passes question.now.runs.now question.now.class)
        (A.hit question.now.aim.now (R.extent question.now.runs.now))
        (A.sound question.now.aim.now (R.extent question.now.runs.now)) question.now.start }
    requires ahead { IsEstimate (R.passes question.now.runs.now question.now.class)
        (A.hit question.now.aim.now (R.extent question.now.runs.now))
        (A.framed question.now.aim.now (R.extent question.now.runs.now)) (R.extent question.now.runs.now)
        (E.least ahead.now) }
    ensures answer { IfOk result (λ traced. IsAnswer (R.passes question.now.runs.now question.now.class)
        question.now.start (A.hit question.now.aim.now (R.extent question.now.runs.now))
        traced.found.end traced.found.cost.0 traced.found.waypoints) }
    ensures opened { IfOk result (λ traced. IsTrue ALL → (rect : Rect) → E.least ahead.now ≡ octile_to rect
        → Counts (IsOpened (R.passes question.now.runs.now question.now.class)
        (A.hit question.now.aim.now (R.extent question.now.runs.now)) question.now.start rect traced.found.cost.0)
        traced.opened) }
    ensures ticks { IfOk result (λ traced. ticks.new ≡ ticks.old + traced.opened) }
    ensures most { IsWithinOpened (R.passes question.now.runs.now question.now.class) (A.hit question.now.aim.now
        (R.extent question.now.runs.now))
        (A.framed question.now.aim.now (R.extent question.now.runs.now)) (R.extent question.now.runs.now)
        question.now.start ticks.old ticks.new }
{
    let framed = BoundedAim {
        aim: question.aim,
        rect: question.aim.bounds(question.runs.size()),
    };
    let (runs, class, start) = (question.runs, question.class, question.start);
    let within = Problem::<R, BoundedAim<'_, A>, ALL> {
        runs,
        class,
        start,
        aim: &framed,
        limit: looked(runs, class, start, &framed, &framed.rect),
    };
    let search = searched(frontier, &within, ahead, ticks)?;
    let Some(best) = search.best else {
        unreachable!()
    };
    let found = found(alloc, &frontier.nodes, start, best)?;
    Ok(Traced {
        found,
        opened: search.opened,
    })
}

/// The answer of a search by octile distances, which is for all jump states within the cost or not.
fn by_octile<R: Runs, A: Aim, L: Ledger, const ALL: bool>(
    frontier: &mut Frontier,
    alloc: Global,
    question: &Question<'_, R, A>,
    ticks: &mut Ticks<L>,
) -> Result<Traced, NoMemory>
    requires class { question.now.class < R.class_count question.now.runs.now }
    requires search { CanSearch (R.passes question.now.runs.now question.now.class)
        (A.hit question.now.aim.now (R.extent question.now.runs.now))
        (A.sound question.now.aim.now (R.extent question.now.runs.now)) question.now.start }
    ensures answer { IfOk result (λ traced. IsAnswer (R.passes question.now.runs.now question.now.class)
        question.now.start (A.hit question.now.aim.now (R.extent question.now.runs.now))
        traced.found.end traced.found.cost.0 traced.found.waypoints) }
    ensures opened { IfOk result (λ traced. IsTrue ALL → CountsOpened
        (R.passes question.now.runs.now question.now.class)
        (A.hit question.now.aim.now (R.extent question.now.runs.now)) (A.framed question.now.aim.now
        (R.extent question.now.runs.now)) (R.extent question.now.runs.now) question.now.start
        traced.found.cost.0 traced.opened) }
    ensures ticks { IfOk result (λ traced. ticks.new ≡ ticks.old + traced.opened) }
    ensures most { IsWithinOpened (R.passes question.now.runs.now question.now.class) (A.hit question.now.aim.now
        (R.extent question.now.runs.now))
        (A.framed question.now.aim.now (R.extent question.now.runs.now)) (R.extent question.now.runs.now)
        question.now.start ticks.old ticks.new }
{
    let rect = question.aim.bounds(question.runs.size());
    answered::<R, A, OctileEstimate, L, ALL>(
        frontier,
        alloc,
        question,
        &OctileEstimate { rect },
        ticks,
    )
}

/// The same answer for a caller who counts no ticks, which are those of a ledger of its own.
fn uncounted<R: Runs, A: Aim, L: Ledger>(
    frontier: &mut Frontier,
    alloc: Global,
    question: &Question<'_, R, A>,
    all: bool,
    blank: Blank,
) -> Result<Traced, NoMemory>
    requires name { blank.name ≡ L.name }
    requires parts { blank.parts ≡ L.parts }
    requires some { 0 < L.parts }
    requires class { question.now.class < R.class_count question.now.runs.now }
    requires search { CanSearch (R.passes question.now.runs.now question.now.class)
        (A.hit question.now.aim.now (R.extent question.now.runs.now))
        (A.sound question.now.aim.now (R.extent question.now.runs.now)) question.now.start }
    ensures { let asked : Asked = record {
      passes = R.passes question.now.runs.now question.now.class;
      start = question.now.start;
      hit = A.hit question.now.aim.now (R.extent question.now.runs.now);
      framed = A.framed question.now.aim.now (R.extent question.now.runs.now);
      size = R.extent question.now.runs.now;
    } in IfOk result (λ traced. IsAnswerTo asked traced.found × (IsTrue all → CountsFor asked traced)) }
{
    let ticks = &mut Ticks::<L>::new(blank);
    if all {
        by_octile::<R, A, L, true>(frontier, alloc, question, ticks)
    } else {
        by_octile::<R, A, L, false>(frontier, alloc, question, ticks)
    }
}

/// The same answer to a guided question for a caller who counts no ticks, which are those of a ledger of its own.
fn uncounted_by<R: Runs, A: Aim, E: Estimate, L: Ledger>(
    frontier: &mut Frontier,
    alloc: Global,
    guided: &Guided<'_, R, A, E>,
    blank: Blank,
) -> Result<Traced, NoMemory>
    requires name { blank.name ≡ L.name }
    requires parts { blank.parts ≡ L.parts }
    requires some { 0 < L.parts }
    requires class { guided.now.question.class < R.class_count guided.now.question.runs.now }
    requires search { CanSearch (R.passes guided.now.question.runs.now guided.now.question.class)
        (A.hit guided.now.question.aim.now (R.extent guided.now.question.runs.now))
        (A.sound guided.now.question.aim.now (R.extent guided.now.question.runs.now)) guided.now.question.start }
    requires ahead { IsEstimate (R.passes guided.now.question.runs.now guided.now.question.class)
        (A.hit guided.now.question.aim.now (R.extent guided.now.question.runs.now))
        (A.framed guided.now.question.aim.now (R.extent guided.now.question.runs.now))
        (R.extent guided.now.question.runs.now) (E.least guided.now.ahead.now) }
    ensures { IfOk result (λ traced. IsAnswer (R.passes guided.now.question.runs.now guided.now.question.class)
        guided.now.question.start (A.hit guided.now.question.aim.now (R.extent guided.now.question.runs.now))
        traced.found.end traced.found.cost.0 traced.found.waypoints) }
{
    let ticks = &mut Ticks::<L>::new(blank);
    answered::<R, A, E, L, false>(frontier, alloc, &guided.question, guided.ahead, ticks)
}

/// Jump searches for the answer to a question, which is the chosen walk from its start to the first in cell order of the
/// nearest cells that its aim hits. The start must be passable, and some hit cell must be joined to it.
///
/// Contracts see the question in the terms of the field (`Asked`).
pub trait JumpSearch {
    ghost use Rattle.std.specs.Prelude.{IfOk};
    ghost use Rattle.jump_search.specs.Questions.{Asked, CountsFor, Finds, IsAnswerTo, Traces};
    ghost use Rattle.jump_search.specs.Within.{FindsWithin, IsAnswerWithin};

    ghost can_search: { Self → Type 0 };

    ghost asked: { Self → Asked };

    /// The answer, and the opened number: how many jump states have a least pruned cost that, with the octile distance to
    /// the rectangle of the aim, is within the cost of the answer.
    ///
    /// Each opened jump state is one tick, so that the ticks are the opened number, and no more than it where memory runs
    /// out. It takes no memory but that of its answer where an earlier search in the pool has taken as much.
    fn jump_search_in<L: Ledger>(
        &self,
        pool: &mut Pool,
        alloc: Global,
        ticks: &mut Ticks<L>,
    ) -> Result<Traced, NoMemory>
        requires { can_search self.now }
        ensures { Traces (asked self.now) ticks.old ticks.new result };

    /// The answer alone, for less: it opens no jump state that is costlier than another of its cell, and none where the
    /// start is hit.
    ///
    /// Each that it opens is one tick, so there are no more than the opened number, also where memory runs out. It takes no
    /// memory but that of its answer where an earlier search in the pool has taken as much.
    fn jump_find_in<L: Ledger>(
        &self,
        pool: &mut Pool,
        alloc: Global,
        ticks: &mut Ticks<L>,
    ) -> Result<Found, NoMemory>
        requires { can_search self.now }
        ensures { Finds (asked self.now) ticks.old ticks.new result };

    /// The answer alone, where it costs at most `most`, and None exactly where it costs more.
    ///
    /// It opens only jump states whose cost and estimate are together at most `most`. Each that it opens is one tick, so there
    /// are no more than have a least pruned cost that, with the octile distance to the rectangle of the aim, is at most `most`.
    /// Nor are there more than the opened number.
    fn jump_find_within<L: Ledger>(
        &self,
        pool: &mut Pool,
        alloc: Global,
        most: u64,
        ticks: &mut Ticks<L>,
    ) -> Result<Option<Found>, NoMemory>
        requires { can_search self.now }
        ensures { FindsWithin (asked self.now) most ticks.old ticks.new result };

    /// As [`JumpSearch::jump_search_in`], for a caller who counts no ticks.
    fn trace(&self, pool: &mut Pool, alloc: Global) -> Result<Traced, NoMemory>
        requires { can_search self.now }
        ensures answer { IfOk result (λ traced. IsAnswerTo (asked self.now) traced.found) }
        ensures opened { IfOk result (CountsFor (asked self.now)) };

    /// As [`JumpSearch::jump_find_in`], for a caller who counts no ticks.
    fn find(&self, pool: &mut Pool, alloc: Global) -> Result<Found, NoMemory>
        requires { can_search self.now }
        ensures { IfOk result (IsAnswerTo (asked self.now)) };

    /// As [`JumpSearch::jump_find_within`], for a caller who counts no ticks.
    fn find_within(
        &self,
        pool: &mut Pool,
        alloc: Global,
        most: u64,
    ) -> Result<Option<Found>, NoMemory>
        requires { can_search self.now }
        ensures { IfOk result (IsAnswerWithin (asked self.now) most) };
}

impl<'q, R: Runs, A: Aim> JumpSearch for Question<'q, R, A> {
    ghost use Rattle.std.specs.Prelude.{◌<◌};
    ghost use Rattle.jump_search.specs.JumpStates.{CanSearch};

    ghost can_search = { λ q. (q.class < R.class_count q.runs.now)
        × CanSearch (R.passes q.runs.now q.class) (A.hit q.aim.now (R.extent q.runs.now))
        (A.sound q.aim.now (R.extent q.runs.now)) q.start };

    ghost asked = { λ q. record {
      passes = R.passes q.runs.now q.class;
      start = q.start;
      hit = A.hit q.aim.now (R.extent q.runs.now);
      framed = A.framed q.aim.now (R.extent q.runs.now);
      size = R.extent q.runs.now;
    } };

    fn jump_search_in<L: Ledger>(
        &self,
        pool: &mut Pool,
        alloc: Global,
        ticks: &mut Ticks<L>,
    ) -> Result<Traced, NoMemory> {
        by_octile::<R, A, L, true>(&mut pool.frontier, alloc, self, ticks)
    }

    fn jump_find_in<L: Ledger>(
        &self,
        pool: &mut Pool,
        alloc: Global,
        ticks: &mut Ticks<L>,
    ) -> Result<Found, NoMemory> {
        if let Some(found) = found_at_start(alloc, self) {
            pool.opened = 0;
            return Ok(found);
        }
        let traced = by_octile::<R, A, L, false>(&mut pool.frontier, alloc, self, ticks)?;
        pool.opened = traced.opened;
        Ok(traced.found)
    }

    fn jump_find_within<L: Ledger>(
        &self,
        pool: &mut Pool,
        alloc: Global,
        most: u64,
        ticks: &mut Ticks<L>,
    ) -> Result<Option<Found>, NoMemory> {
        found_within(pool, alloc, self, &octile_of(self), most, ticks)
    }

    fn trace(&self, pool: &mut Pool, alloc: Global) -> Result<Traced, NoMemory> {
        uncounted::<R, A, Brand>(&mut pool.frontier, alloc, self, true, Blank::new(1))
    }

    fn find(&self, pool: &mut Pool, alloc: Global) -> Result<Found, NoMemory> {
        if let Some(found) = found_at_start(alloc, self) {
            pool.opened = 0;
            return Ok(found);
        }
        let traced = uncounted::<R, A, Brand>(
            &mut pool.frontier,
            alloc,
            self,
            false,
            Blank::new(1),
        )?;
        pool.opened = traced.opened;
        Ok(traced.found)
    }

    fn find_within(
        &self,
        pool: &mut Pool,
        alloc: Global,
        most: u64,
    ) -> Result<Option<Found>, NoMemory> {
        let ahead = octile_of(self);
        uncounted_within::<R, A, OctileEstimate, Brand>(
            pool,
            alloc,
            self,
            &ahead,
            most,
            Blank::new(1),
        )
    }
}

impl<'q, R: Runs, A: Aim, E: Estimate> JumpSearch for Guided<'q, R, A, E> {
    ghost use Rattle.std.specs.Prelude.{◌<◌};
    ghost use Rattle.jump_search.specs.Estimates.{IsEstimate};
    ghost use Rattle.jump_search.specs.JumpStates.{CanSearch};

    ghost can_search = { λ g. ((g.question.class < R.class_count g.question.runs.now)
        × CanSearch (R.passes g.question.runs.now g.question.class)
        (A.hit g.question.aim.now (R.extent g.question.runs.now))
        (A.sound g.question.aim.now (R.extent g.question.runs.now)) g.question.start)
        × IsEstimate (R.passes g.question.runs.now g.question.class)
        (A.hit g.question.aim.now (R.extent g.question.runs.now))
        (A.framed g.question.aim.now (R.extent g.question.runs.now)) (R.extent g.question.runs.now)
        (E.least g.ahead.now) };

    ghost asked = { λ g. record {
      passes = R.passes g.question.runs.now g.question.class;
      start = g.question.start;
      hit = A.hit g.question.aim.now (R.extent g.question.runs.now);
      framed = A.framed g.question.aim.now (R.extent g.question.runs.now);
      size = R.extent g.question.runs.now;
    } };

    fn jump_search_in<L: Ledger>(
        &self,
        pool: &mut Pool,
        alloc: Global,
        ticks: &mut Ticks<L>,
    ) -> Result<Traced, NoMemory> {
        self.question.jump_search_in(pool, alloc, ticks)
    }

    fn jump_find_in<L: Ledger>(
        &self,
        pool: &mut Pool,
        alloc: Global,
        ticks: &mut Ticks<L>,
    ) -> Result<Found, NoMemory> {
        let Guided { question, ahead } = self;
        if let Some(found) = found_at_start(alloc, question) {
            pool.opened = 0;
            return Ok(found);
        }
        let traced = answered::<R, A, E, L, false>(
            &mut pool.frontier,
            alloc,
            question,
            *ahead,
            ticks,
        )?;
        pool.opened = traced.opened;
        Ok(traced.found)
    }

    fn jump_find_within<L: Ledger>(
        &self,
        pool: &mut Pool,
        alloc: Global,
        most: u64,
        ticks: &mut Ticks<L>,
    ) -> Result<Option<Found>, NoMemory> {
        let Guided { question, ahead } = self;
        found_within(pool, alloc, question, *ahead, most, ticks)
    }

    fn trace(&self, pool: &mut Pool, alloc: Global) -> Result<Traced, NoMemory> {
        self.question.trace(pool, alloc)
    }

    fn find(&self, pool: &mut Pool, alloc: Global) -> Result<Found, NoMemory> {
        if let Some(found) = found_at_start(alloc, &self.question) {
            pool.opened = 0;
            return Ok(found);
        }
        let traced = uncounted_by::<R, A, E, Brand>(
            &mut pool.frontier,
            alloc,
            self,
            Blank::new(1),
        )?;
        pool.opened = traced.opened;
        Ok(traced.found)
    }

    fn find_within(
        &self,
        pool: &mut Pool,
        alloc: Global,
        most: u64,
    ) -> Result<Option<Found>, NoMemory> {
        let Guided { question, ahead } = self;
        uncounted_within::<R, A, E, Brand>(pool, alloc, question, *ahead, most, Blank::new(1))
    }
}

/// As [`JumpSearch::jump_search_in`], in a pool of its own.
pub fn jump_search_with<Q: JumpSearch, L: Ledger>(
    alloc: Global,
    question: &Q,
    ticks: &mut Ticks<L>,
) -> Result<Traced, NoMemory>
    requires { Q.can_search question.now }
    ensures { Traces (Q.asked question.now) ticks.old ticks.new result }
{
    let mut pool = Pool::new(alloc)?;
    question.jump_search_in(&mut pool, alloc, ticks)
}

/// As [`jump_search_with`], over any view, cell by cell.
pub fn jump_search<V: View, A: Aim, L: Ledger>(
    alloc: Global,
    view: &V,
    class: Class,
    start: Cell,
    aim: &A,
    ticks: &mut Ticks<L>,
) -> Result<Traced, NoMemory>
    requires class { class < V.class_count view.now }
    requires search { CanSearch (V.passes view.now class) (A.hit aim.now (V.extent view.now))
        (A.sound aim.now (V.extent view.now)) start }
    ensures { Traces (record {
      passes = V.passes view.now class;
      start = start;
      hit = A.hit aim.now (V.extent view.now);
      framed = A.framed aim.now (V.extent view.now);
      size = V.extent view.now;
    }) ticks.old ticks.new result }
{
    let question = Question {
        runs: &CellRuns::new(view),
        class,
        start,
        aim,
    };
    jump_search_with(alloc, &question, ticks)
}
