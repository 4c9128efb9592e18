//! Many workers as one who answers turns.
ghost use Rattle.std.specs.Prelude.{◌≡◌, ◌^◌, ◌<◌, IfOk, length};

use grid_versions::Version;
use nav_types::NoMemory;
use path_workers::PoolCache;
use std::alloc::Global;
use std::mem;
use turn_core::{Answerer, Jobs, NotedAnswers, Report};

/// Workers who answer turns, one after another: `run` has them answer one, in the pools that they kept from the turns before,
/// and gives the pools back.
#[derive(Drop)]
pub(crate) struct Team<F> {
    pub pool_cache: PoolCache,
    pub run: F,
}

impl<
    F: Fn(
        Global,
        PoolCache,
        &Version,
        &Jobs,
        Report,
    ) -> (PoolCache, Result<NotedAnswers, NoMemory>),
> Answerer for Team<F> {
    ghost use Rattle.std.specs.Prelude.{◌^◌, ◌<◌, IfOk, length};
    ghost use Rattle.turn_core.specs.Notes.{AreNotes};
    ghost use Rattle.turn_core.specs.Solving.{AreAnswersTo};

    ghost takes = { λ team count. (count < 2 ^ 32)
        × ((alloc pool_cache version jobs report : _) → length jobs.now < 2 ^ 32
        → F.pre team.run alloc pool_cache version jobs report)
        × ((alloc pool_cache version jobs report result : _) → F.post team.run alloc pool_cache version jobs report result
        → IfOk result.1 (λ noted. AreAnswersTo version.now.map version.now.standing jobs.now noted.answers
        × AreNotes version.now.map version.now.standing report jobs.now noted.notes)) };

    fn noted_answers(
        &mut self,
        alloc: Global,
        version: &Version,
        jobs: &Jobs,
        report: Report,
    ) -> Result<NotedAnswers, NoMemory> {
        let pool_cache = mem::replace(&mut self.pool_cache, PoolCache::new(alloc));
        let (pool_cache, noted) = (self.run)(alloc, pool_cache, version, jobs, report);
        self.pool_cache = pool_cache;
        noted
    }
}
