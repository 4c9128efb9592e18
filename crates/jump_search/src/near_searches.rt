//! Searches that look no further than a greatest cost.
ghost use Rattle.std.specs.Prelude.{◌≡◌, ◌<◌, ◌≤◌, ◌⊎◌, ℕ, Some, IsTrue, IfSome, IfNone, IfOk};
ghost use Rattle.std.specs.FinMap as map;
ghost use Rattle.open_heap.specs.Queue.{IsLeast};
ghost use Rattle.jump_search.specs.Estimates.{IsConsistent, IsEstimate};
ghost use Rattle.jump_search.specs.JumpStates.{octile_to, CanSearch};
ghost use Rattle.jump_search.specs.Questions.{Asked};
ghost use Rattle.jump_search.specs.Within.{FindsWithin, IsAnswerWithin};
ghost use Rattle.jump_search.specs.inner.Nearby.{HasEndedWithin, IsHaltedWithin};
ghost use Rattle.jump_search.specs.inner.Searched.{IsCostToHit};
ghost use Rattle.jump_search.specs.inner.Underway.{IsNotPast, IsPast};

use crate::bounded_aims::BoundedAim;
use crate::estimates::{Estimate, OctileEstimate};
use crate::frontier::Frontier;
use crate::looks::looked;
use crate::problems::{Problem, Question};
use crate::search::{Pool, found, found_at_start};
use crate::searching::Search;
use jump_scan::Runs;
use nav_types::{Aim, NoMemory, Ticks};
use open_heap::Entry;
use std::alloc::Global;
use std::sync::ledger::{Blank, Ledger};
use walks::Found;

/// Takes the next entry from the open list of a search, where its estimate is past neither the best hit's cost nor the
/// greatest cost. None where the search has ended.
#[inline(always)]
fn next_within(search: &Search, frontier: &mut Frontier, most: u64) -> Option<Entry>
    ensures nodes { frontier.new.nodes ≡ frontier.old.nodes }
    ensures least { IfSome result (IsLeast frontier.old.waiting) }
    ensures rest { IfSome result (λ entry. frontier.new.waiting ≡ map.remove frontier.old.waiting entry.key) }
    ensures near { IfSome result (λ entry. IsNotPast search.now.best entry.estimate) }
    ensures low { IfSome result (λ entry. entry.estimate ≤ most) }
    ensures past { IfNone result ((number estimate : ℕ) → map.get frontier.old.waiting number ≡ Some estimate
        → IsPast search.now.best estimate ⊎ (most < estimate)) }
{
    let Some(entry) = search.next(frontier) else {
        return None;
    };
    if most < entry.estimate {
        return None;
    }
    Some(entry)
}

/// Searches from the start until no node is left within the cost of the best hit and the greatest cost. Each node that is
/// opened is one tick.
#[inline(always)]
fn searched_within<R: Runs, A: Aim, E: Estimate, L: Ledger, const ALL: bool>(
    frontier: &mut Frontier,
    problem: &Problem<'_, R, A, ALL>,
    ahead: &E,
    most: u64,
    ticks: &mut Ticks<L>,
) -> Result<Search, NoMemory>
    requires class { problem.now.class < R.class_count problem.now.runs.now }
    requires start { IsTrue (R.passes problem.now.runs.now problem.now.class problem.now.start) }
    requires limit { IfSome problem.now.limit (IsCostToHit (R.passes problem.now.runs.now problem.now.class)
        (A.hit problem.now.aim.now (R.extent problem.now.runs.now)) problem.now.start) }
    requires aim { A.sound problem.now.aim.now (R.extent problem.now.runs.now) }
    requires ahead { IsConsistent (R.passes problem.now.runs.now problem.now.class) (A.hit problem.now.aim.now
        (R.extent problem.now.runs.now)) (E.least ahead.now) }
    ensures ended { IfOk result (λ search. HasEndedWithin ALL
        (R.passes problem.now.runs.now problem.now.class) (A.hit problem.now.aim.now
        (R.extent problem.now.runs.now)) problem.now.start (E.least ahead.now) most frontier.new.nodes search.best) }
    ensures halted { IsHaltedWithin ALL (R.passes problem.now.runs.now problem.now.class)
        (A.hit problem.now.aim.now (R.extent problem.now.runs.now)) problem.now.start (E.least ahead.now) most
        ticks.old ticks.new }
{
    let mut search = Search::new(frontier, ahead, problem.start)?;
    'search: while let Some(entry) = next_within(&search, frontier, most) {
        search.take::<R, A, E, L, ALL>(frontier, problem, ahead, entry, ticks)?;
    }
    Ok(search)
}

/// The octile distances to the rectangle of a question's aim.
pub(crate) fn octile_of<R: Runs, A: Aim>(question: &Question<'_, R, A>) -> OctileEstimate
    requires { CanSearch (R.passes question.now.runs.now question.now.class)
        (A.hit question.now.aim.now (R.extent question.now.runs.now))
        (A.sound question.now.aim.now (R.extent question.now.runs.now)) question.now.start }
    ensures { IsEstimate (R.passes question.now.runs.now question.now.class)
        (A.hit question.now.aim.now (R.extent question.now.runs.now))
        (A.framed question.now.aim.now (R.extent question.now.runs.now)) (R.extent question.now.runs.now)
        (octile_to result.rect) }
{
    let rect = question.aim.bounds(question.runs.size());
    OctileEstimate { rect }
}

/// The answer of a search by an estimate, where it costs at most `most`, and None exactly where it costs more.
pub(crate) fn found_within<R: Runs, A: Aim, E: Estimate, L: Ledger>(
    pool: &mut Pool,
    alloc: Global,
    question: &Question<'_, R, A>,
    ahead: &E,
    most: u64,
    ticks: &mut Ticks<L>,
) -> Result<Option<Found>, NoMemory>
    requires class { question.now.class < R.class_count question.now.runs.now }
    requires search { CanSearch (R.passes question.now.runs.now question.now.class)
        (A.hit question.now.aim.now (R.extent question.now.runs.now))
        (A.sound question.now.aim.now (R.extent question.now.runs.now)) question.now.start }
    requires ahead { IsEstimate (R.passes question.now.runs.now question.now.class)
        (A.hit question.now.aim.now (R.extent question.now.runs.now))
        (A.framed question.now.aim.now (R.extent question.now.runs.now)) (R.extent question.now.runs.now)
        (E.least ahead.now) }
    ensures { let asked : Asked = record {
      passes = R.passes question.now.runs.now question.now.class;
      start = question.now.start;
      hit = A.hit question.now.aim.now (R.extent question.now.runs.now);
      framed = A.framed question.now.aim.now (R.extent question.now.runs.now);
      size = R.extent question.now.runs.now;
    } in FindsWithin asked most ticks.old ticks.new result }
{
    if let Some(found) = found_at_start(alloc, question) {
        pool.opened = 0;
        return Ok(Some(found));
    }
    let framed = BoundedAim {
        aim: question.aim,
        rect: question.aim.bounds(question.runs.size()),
    };
    let (runs, class, start) = (question.runs, question.class, question.start);
    let within = Problem::<R, BoundedAim<'_, A>, false> {
        runs,
        class,
        start,
        aim: &framed,
        limit: looked(runs, class, start, &framed, &framed.rect),
    };
    let search = searched_within(&mut pool.frontier, &within, ahead, most, ticks)?;
    let Some(best) = search.best else {
        pool.opened = search.opened;
        return Ok(None);
    };
    let found = found(alloc, &pool.frontier.nodes, start, best)?;
    pool.opened = search.opened;
    Ok(Some(found))
}

/// The same answer for a caller who counts no ticks, which are those of a ledger of its own.
pub(crate) fn uncounted_within<R: Runs, A: Aim, E: Estimate, L: Ledger>(
    pool: &mut Pool,
    alloc: Global,
    question: &Question<'_, R, A>,
    ahead: &E,
    most: u64,
    blank: Blank,
) -> Result<Option<Found>, NoMemory>
    requires name { blank.name ≡ L.name }
    requires parts { blank.parts ≡ L.parts }
    requires some { 0 < L.parts }
    requires class { question.now.class < R.class_count question.now.runs.now }
    requires search { CanSearch (R.passes question.now.runs.now question.now.class)
        (A.hit question.now.aim.now (R.extent question.now.runs.now))
        (A.sound question.now.aim.now (R.extent question.now.runs.now)) question.now.start }
    requires ahead { IsEstimate (R.passes question.now.runs.now question.now.class)
        (A.hit question.now.aim.now (R.extent question.now.runs.now))
        (A.framed question.now.aim.now (R.extent question.now.runs.now)) (R.extent question.now.runs.now)
        (E.least ahead.now) }
    ensures { let asked : Asked = record {
      passes = R.passes question.now.runs.now question.now.class;
      start = question.now.start;
      hit = A.hit question.now.aim.now (R.extent question.now.runs.now);
      framed = A.framed question.now.aim.now (R.extent question.now.runs.now);
      size = R.extent question.now.runs.now;
    } in IfOk result (IsAnswerWithin asked most) }
{
    let ticks = &mut Ticks::<L>::new(blank);
    found_within(pool, alloc, question, ahead, most, ticks)
}
