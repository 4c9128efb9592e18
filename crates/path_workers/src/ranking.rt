//! The order in which the jobs of a turn are drawn.
ghost use Rattle.std.specs.Prelude.{◌^◌, ◌<◌, ◌≡◌, IfOk, length, map};
ghost use Rattle.nav_types.specs.Counting.{Lists};
ghost use Rattle.path_workers.specs.inner.Ranking.{ranked_job};

use crate::sharing::work_of;
use grid_versions::Version;
use nav_types::NoMemory;
use std::alloc::Global;
use turn_core::{Report, Request};

/// A job by its number, and its work.
#[derive(Clone, Copy, Debug)]
pub(crate) struct RankedJob {
    pub job: u32,
    pub work: u64,
}

/// The numbers of the jobs, those of more work first, and of equal work by their numbers. Then the last to be drawn are
/// short, and no worker is left with a long one where the others have ended. The order has no say in the answers.
pub(crate) fn longest_first(
    alloc: Global,
    version: &Version,
    jobs: &[Request],
    report: Report,
) -> Result<Vec<u32>, NoMemory>
    requires { length jobs.now < 2 ^ 32 }
    ensures all { IfOk result (λ order. Lists (λ job. job < length jobs.now) order.items) }
    ensures count { IfOk result (λ order. length order.items ≡ length jobs.now) }
{
    let mut ranked = all_ranked(alloc, version, jobs, report)?;
    ranked.sort_by(|one, other| other.work.cmp(&one.work))?;
    numbers_of(alloc, &ranked)
}

/// The jobs with their work, by their numbers.
fn all_ranked(
    alloc: Global,
    version: &Version,
    jobs: &[Request],
    report: Report,
) -> Result<Vec<RankedJob>, NoMemory>
    requires { length jobs.now < 2 ^ 32 }
    ensures all { IfOk result (λ ranked. Lists (λ job. job < length jobs.now) (map ranked_job ranked.items)) }
    ensures count { IfOk result (λ ranked. length ranked.items ≡ length jobs.now) }
{
    let mut ranked = Vec::with_capacity(alloc, jobs.len())?;
    let mut job: u32 = 0;
    for request in jobs {
        ranked.push_reserved(RankedJob {
            job,
            work: work_of(version, request, report),
        });
        job += 1;
    }
    Ok(ranked)
}

/// The numbers of ranked jobs, in their order.
fn numbers_of(alloc: Global, ranked: &[RankedJob]) -> Result<Vec<u32>, NoMemory>
    ensures { IfOk result (λ order. order.items ≡ map ranked_job ranked.now) }
{
    let mut order = Vec::with_capacity(alloc, ranked.len())?;
    for one in ranked {
        order.push_reserved(one.job);
    }
    Ok(order)
}
