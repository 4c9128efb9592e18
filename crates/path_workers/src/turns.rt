//! Turns whose jobs are solved by many workers.
ghost use Rattle.std.specs.Prelude.{◌≡◌, ◌^◌, ◌<◌, ◌≤◌, IfOk, length};
ghost use Rattle.turn_core.specs.Solving.{AreAnswersTo};
ghost use Rattle.turn_core.specs.Notes.{AreNotes};
ghost use Rattle.path_workers.specs.Sharing.{worth_workers};

use crate::drawing::{Turn, draw_by};
use crate::placing::{blank_places, in_order};
use crate::pool_cache::PoolCache;
use crate::ranking::longest_first;
use crate::sharing::worth_workers;
use claim_board::Claims;
use grid_versions::Version;
use io_edges::Gate;
use nav_types::NoMemory;
use nav_types::limits::MAX_WORKERS;
use std::alloc::Global;
use std::marker::Model;
use std::thread::Threads;
use turn_core::{Jobs, NotedAnswers, Report};

/// So many workers, 1 to 64, who pass a gate. Contracts see their number.
#[derive(Drop)]
pub struct Workers<'a, G> {
    count: u8,
    gate: &'a G,
}

impl<'a, G> Model for Workers<'a, G> {
    ghost use Rattle.std.specs.Prelude.{ℕ, ◌≤◌};
    ghost use Rattle.nav_types.specs.declared.limits.TheConstants.{MAX_WORKERS};

    ghost Value = { ℕ };

    ghost view = { λ w. w.count };

    ghost invariant = { λ w. (1 ≤ w.count) × (w.count ≤ MAX_WORKERS) };
}

impl<'a, G: Gate + Sync> Workers<'a, G> {
    /// So many workers at a gate.
    pub fn new(count: u8, gate: &'a G) -> Workers<'a, G>
        requires some { 1 ≤ count }
        requires most { count ≤ MAX_WORKERS }
        ensures { result ≡ count }
    {
        Workers { count, gate }
    }

    /// The answers to the jobs on a version, each in the place of its job (`AreAnswersTo`), with what the report tells of
    /// each (`AreNotes`), whatever the gate, the number of workers, the order in which they come to their jobs, and the
    /// pools in which they search, which have theirs at the end. There are fewer than 2^32 jobs. It refuses for want of
    /// memory alone.
    ///
    /// The workers draw the jobs one by one from a claim board, and each passes the gate once before it solves a job. There
    /// are no more threads than jobs, and none for a single job. Where no thread can be started, the caller's own does its
    /// work.
    ///
    /// Where memory was short for several workers, the caller's thread solves all jobs once more by itself: by then the
    /// others have ended, and what they held is free. So many workers refuse hardly more than one does.
    pub fn run_noted<R: Threads + Sync>(
        &self,
        rt: &R,
        alloc: Global,
        version: &Version,
        jobs: &Jobs,
        report: Report,
        pool_cache: &mut PoolCache,
    ) -> Result<NotedAnswers, NoMemory>
        requires { length jobs.now < 2 ^ 32 }
        ensures answers { IfOk result (λ noted. AreAnswersTo version.now.map version.now.standing jobs.now noted.answers) }
        ensures notes { IfOk result (λ noted. AreNotes version.now.map version.now.standing report jobs.now noted.notes) }
    {
        match self.run_once(rt, alloc, version, jobs, report, pool_cache) {
            Ok(noted) => Ok(noted),
            Err(NoMemory) if self.count == 1 || jobs.len() < 2 => Err(NoMemory),
            Err(NoMemory) => {
                *pool_cache = PoolCache::new(alloc);
                let alone = Workers {
                    count: 1,
                    gate: self.gate,
                };
                alone.run_once(rt, alloc, version, jobs, report, pool_cache)
            }
        }
    }

    /// The answers that [`Workers::run_noted`] gives, where memory is not short for any worker.
    fn run_once<R: Threads + Sync>(
        &self,
        rt: &R,
        alloc: Global,
        version: &Version,
        jobs: &Jobs,
        report: Report,
        pool_cache: &mut PoolCache,
    ) -> Result<NotedAnswers, NoMemory>
        requires { length jobs.now < 2 ^ 32 }
        ensures answers { IfOk result (λ noted. AreAnswersTo version.now.map version.now.standing jobs.now noted.answers) }
        ensures notes { IfOk result (λ noted. AreNotes version.now.map version.now.standing report jobs.now noted.notes) }
    {
        let jobs = jobs.as_slice();
        let order = longest_first(alloc, version, jobs, report)?;
        let count = jobs.len();
        let places = blank_places(alloc, count)?;
        let (claims, seat) = Claims::start(alloc, count as u64)?;
        let turn = Turn {
            version,
            jobs,
            order: &order,
            claims: &claims,
            gate: self.gate,
            report,
        };
        let workers = u64::from(self.count).min(count as u64).max(1);
        let own = pool_cache.take_all(alloc);
        let worked = draw_by(rt, alloc, &turn, seat, workers, own);
        *pool_cache = worked.pool_cache;
        let answered = worked.answered?;
        // Of the jobs that were drawn, each was answered: so all of them have their answer, and none has two.
        let _drawings = claims.close(worked.seat);
        Ok(in_order(places, answered))
    }

    /// As many of the workers, at their gate, as the jobs are worth ([`worth_workers`]).
    pub fn sized_for(&self, version: &Version, jobs: &Jobs, report: Report) -> Workers<'a, G>
        requires { length jobs.now < 2 ^ 32 }
        ensures { result ≡ worth_workers version.now.map version.now.standing report jobs.now self.now }
    {
        Workers {
            count: worth_workers(version, jobs, report, self.count),
            gate: self.gate,
        }
    }

    /// The answers that [`Workers::run_noted`] gives, by as many of the workers as the jobs are worth, with the pools in
    /// which they searched.
    pub fn answer_in<R: Threads + Sync>(
        &self,
        rt: &R,
        alloc: Global,
        pool_cache: PoolCache,
        version: &Version,
        jobs: &Jobs,
        report: Report,
    ) -> (PoolCache, Result<NotedAnswers, NoMemory>)
        requires { length jobs.now < 2 ^ 32 }
        ensures answers { IfOk result.1 (λ noted. AreAnswersTo version.now.map version.now.standing jobs.now noted.answers) }
        ensures notes { IfOk result.1 (λ noted. AreNotes version.now.map version.now.standing report jobs.now noted.notes) }
    {
        let mut pool_cache = pool_cache;
        let few = self.sized_for(version, jobs, report);
        let noted = few.run_noted(rt, alloc, version, jobs, report, &mut pool_cache);
        (pool_cache, noted)
    }
}
