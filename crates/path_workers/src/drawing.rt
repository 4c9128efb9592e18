//! Workers, who draw jobs from a claim board and solve them.
ghost use Rattle.std.specs.Prelude.{◌≡◌, ◌-◌, ◌<◌, ◌≤◌, ◌++◌, [], false, All, length, IfOk, IsOkAnd, OnOk};
ghost use denote.Param.Send.{IsSync};
ghost use Rattle.path_workers.specs.inner.Working.{HasOneMore, HasWorked};

use crate::placing::Answered;
use crate::pool_cache::PoolCache;
use claim_board::{Claims, Drawn, Seat};
use grid_versions::Version;
use io_edges::Gate;
use nav_types::{NoMemory, Sequence};
use std::alloc::Global;
use std::thread::{Threads, join};
use turn_core::{Report, Request, Solver};

/// The jobs of a turn on a version, the order in which they are drawn, the board that hands out its places, the gate that is
/// passed before each job, and what is told beside the answers.
#[derive(Drop)]
pub(crate) struct Turn<'a, G> {
    pub version: &'a Version,
    pub jobs: &'a [Request],
    pub order: &'a [u32],
    pub claims: &'a Claims,
    pub gate: &'a G,
    pub report: Report,
}

/// What workers hand back: their seat, their answers with the jobs' numbers, and their pools.
#[derive(Drop)]
pub(crate) struct Worked {
    pub seat: Seat,
    pub answered: Result<Sequence<Answered>, NoMemory>,
    pub pool_cache: PoolCache,
}

/// Draws jobs and solves each, until none is left. The gate is passed once before each job.
fn draw_all<G: Gate>(
    alloc: Global,
    turn: &Turn<'_, G>,
    seat: Seat,
    mut pool_cache: PoolCache,
) -> Worked
    requires jobs { turn.now.claims.now.jobs ≡ length turn.now.order.now }
    requires order { All (λ job. job < length turn.now.jobs.now) turn.now.order.now }
    requires own { seat.board ≡ turn.now.claims.now }
    requires list { seat.drawn ≡ [] }
    requires live { seat.ended ≡ false }
    ensures { HasWorked turn.now.version.now.map turn.now.version.now.standing turn.now.report turn.now.jobs.now
        turn.now.order.now seat result }
{
    match pool_cache.take(alloc) {
        Ok(pool) => {
            let solver = Solver::in_pool(turn.version, turn.report, pool);
            draw_with(alloc, turn, seat, solver, pool_cache)
        }
        Err(NoMemory) => Worked {
            seat,
            answered: Err(NoMemory),
            pool_cache,
        },
    }
}

/// Draws jobs until none is left, and has the solver answer each. The pool of the solver is kept in the cache.
fn draw_with<G: Gate>(
    alloc: Global,
    turn: &Turn<'_, G>,
    mut seat: Seat,
    mut solver: Solver<'_>,
    mut pool_cache: PoolCache,
) -> Worked
    requires jobs { turn.now.claims.now.jobs ≡ length turn.now.order.now }
    requires order { All (λ job. job < length turn.now.jobs.now) turn.now.order.now }
    requires own { seat.board ≡ turn.now.claims.now }
    requires list { seat.drawn ≡ [] }
    requires live { seat.ended ≡ false }
    requires solver { solver ≡ record { state = turn.now.version.now; report = turn.now.report } }
    ensures { HasWorked turn.now.version.now.map turn.now.version.now.standing turn.now.report turn.now.jobs.now
        turn.now.order.now seat result }
{
    let mut answered = Sequence::new(alloc);
    'drawing: loop {
        match turn.claims.claim(seat) {
            Drawn::Job(place, next) => {
                seat = next;
                let job = turn.order[place as usize];
                let Ok(()) = solve_job(alloc, turn, &mut solver, job, &mut answered) else {
                    return Worked {
                        seat,
                        answered: Err(NoMemory),
                        pool_cache,
                    };
                };
            }
            Drawn::Ended(next) => {
                pool_cache.put(solver.into_pool());
                return Worked {
                    seat: next,
                    answered: Ok(answered),
                    pool_cache,
                };
            }
        }
    }
}

/// Passes the gate, solves one job and appends its answer.
fn solve_job<G: Gate>(
    alloc: Global,
    turn: &Turn<'_, G>,
    solver: &mut Solver<'_>,
    job: u32,
    answered: &mut Sequence<Answered>,
) -> Result<(), NoMemory>
    requires job { job < length turn.now.jobs.now }
    ensures answered { OnOk result (HasOneMore solver.old.state.map solver.old.state.standing solver.old.report
        turn.now.jobs.now job answered.old answered.new) }
    ensures same { solver.new ≡ solver.old }
{
    turn.gate.pass(u64::from(job));
    let noted = solver.solve(alloc, &turn.jobs[job as usize])?;
    answered.push(Answered { job, noted })?;
    Ok(())
}

/// Draws jobs by so many workers, each with its part of the seat's share, and each but one on a thread of its own.
pub(crate) fn draw_by<R: Threads + Sync, G: Gate + Sync>(
    rt: &R,
    alloc: Global,
    turn: &Turn<'_, G>,
    seat: Seat,
    workers: u64,
    mut pool_cache: PoolCache,
) -> Worked
    requires jobs { turn.now.claims.now.jobs ≡ length turn.now.order.now }
    requires order { All (λ job. job < length turn.now.jobs.now) turn.now.order.now }
    requires own { seat.board ≡ turn.now.claims.now }
    requires list { seat.drawn ≡ [] }
    requires live { seat.ended ≡ false }
    requires some { 1 ≤ workers }
    requires share { workers ≤ seat.share }
    ensures { HasWorked turn.now.version.now.map turn.now.version.now.standing turn.now.report turn.now.jobs.now
        turn.now.order.now seat result }
{
    if workers == 1 {
        return draw_all(alloc, turn, seat, pool_cache);
    }
    let Turn {
        version,
        jobs,
        order,
        claims,
        gate,
        report,
    } = *turn;
    let half = workers / 2;
    let (one, other) = claims.split(seat);
    let others = pool_cache.split(alloc, half as usize);
    let (first, second) = join(
        rt,
        || -> Worked
            requires { IsSync R.row × (claims.now.jobs ≡ length order.now)
                × All (λ job. job < length jobs.now) order.now × (one.board ≡ claims.now)
                × (one.drawn ≡ []) × (one.ended ≡ false) × (1 ≤ workers - half) × (workers - half ≤ one.share) }
            ensures { HasWorked version.entry.now.map version.entry.now.standing report jobs.entry.now
                order.entry.now one result }
        {
            let turn = Turn {
                version,
                jobs,
                order,
                claims,
                gate,
                report,
            };
            draw_by(rt, alloc, &turn, one, workers - half, pool_cache)
        },
        || -> Worked
            requires { IsSync R.row × (claims.now.jobs ≡ length order.now)
                × All (λ job. job < length jobs.now) order.now × (other.board ≡ claims.now)
                × (other.drawn ≡ []) × (other.ended ≡ false) × (1 ≤ half) × (half ≤ other.share) }
            ensures { HasWorked version.entry.now.map version.entry.now.standing report jobs.entry.now
                order.entry.now other result }
        {
            let turn = Turn {
                version,
                jobs,
                order,
                claims,
                gate,
                report,
            };
            draw_by(rt, alloc, &turn, other, half, others)
        },
    );
    let mut pool_cache = first.pool_cache;
    pool_cache.take_in(second.pool_cache);
    Worked {
        seat: claims.join(first.seat, second.seat),
        answered: both(first.answered, second.answered),
        pool_cache,
    }
}

/// The answers of two, where both have theirs.
fn both(
    first: Result<Sequence<Answered>, NoMemory>,
    second: Result<Sequence<Answered>, NoMemory>,
) -> Result<Sequence<Answered>, NoMemory>
    ensures { IfOk result (λ all. IsOkAnd first (λ front. IsOkAnd second (λ back. all ≡ front ++ back))) }
{
    let mut all = first?;
    all.append(&mut second?)?;
    Ok(all)
}
