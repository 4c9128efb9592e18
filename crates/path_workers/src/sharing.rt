//! How many workers the jobs of a turn are worth.
ghost use Rattle.std.specs.Prelude.{◌≡◌, ◌^◌, ◌<◌, ◌≤◌, length, sum_by};
ghost use Rattle.goal_shapes.specs.Limits.{middle_x, middle_z};
ghost use Rattle.path_workers.specs.Sharing.{apart, distance_to, path_work, work_of, worth_workers};

use fixed_point::Fixed;
use goal_shapes::Goal;
use grid_versions::Version;
use nav_types::limits::MAX_WORKERS;
use turn_core::{Jobs, Report, Request, goal_of};

/// The work for which one worker more pays, in navcells.
pub const WORK_OF_A_WORKER: u64 = 65_536;

/// The work of a path beside that of its way, in navcells.
pub const LEAST_WORK: u64 = 64;

/// How many of so many workers the jobs of a turn on a version are worth (`worth_workers`): one for each whole
/// [`WORK_OF_A_WORKER`] of the turn's work, and one at least. No clock has a say in it, so a turn is shared alike on
/// every machine.
///
/// The work of a path is [`LEAST_WORK`] and the navcells of a square about its way, from the start to the middle of its
/// goal. That of a flow field is a worker's, however long the way.
pub fn worth_workers(version: &Version, jobs: &Jobs, report: Report, most: u8) -> u8
    requires some { 1 ≤ most }
    requires most { most ≤ MAX_WORKERS }
    requires few { length jobs.now < 2 ^ 32 }
    ensures value { result ≡ worth_workers version.now.map version.now.standing report jobs.now most }
    ensures some { 1 ≤ result }
    ensures most { result ≤ most }
{
    let shares = work_of_all(version, jobs.as_slice(), report) / WORK_OF_A_WORKER;
    shares.min(u64::from(most)).max(1) as u8
}

/// The work of all jobs.
fn work_of_all(version: &Version, jobs: &[Request], report: Report) -> u64
    requires { length jobs.now < 2 ^ 32 }
    ensures { result ≡ sum_by (work_of version.now.map version.now.standing report) jobs.now }
{
    let mut work = 0;
    for job in jobs {
        work += work_of(version, job, report);
    }
    work
}

/// The work of a job (`work_of`).
pub(crate) fn work_of(version: &Version, job: &Request, report: Report) -> u64
    ensures value { result ≡ work_of version.now.map version.now.standing report job.now }
    ensures few { result < 2 ^ 32 }
{
    match job {
        Request::Region(_) => 0,
        Request::Path(request) => match goal_of(version, &request.goal) {
            Ok(goal) => path_work(report, distance_to(request.x, request.z, &goal)),
            Err(_) => 0,
        },
    }
}

/// The work of a path whose goal lies so far away (`path_work`).
fn path_work(report: Report, distance: u64) -> u64
    requires { distance ≤ 65535 }
    ensures value { result ≡ path_work report distance }
    ensures few { result < 2 ^ 32 }
{
    match report {
        Report::Flows => WORK_OF_A_WORKER,
        _ => LEAST_WORK + distance * distance,
    }
}

/// How far the middle of a goal lies from the point (`x`, `z`), along the columns or the rows, whichever is farther.
fn distance_to(x: Fixed, z: Fixed, goal: &Goal) -> u64
    ensures value { result ≡ distance_to x z goal.now }
    ensures few { result ≤ 65535 }
{
    let extent = goal.extent();
    apart(x, extent.x).max(apart(z, extent.z))
}

/// How many whole navcells two coordinates lie apart.
fn apart(one: Fixed, other: Fixed) -> u64
    ensures value { result ≡ apart one other }
    ensures few { result ≤ 65535 }
{
    (i64::from(one.raw()) - i64::from(other.raw())).unsigned_abs() / 65_536
}
