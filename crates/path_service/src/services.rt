//! The start of a service.
ghost use Rattle.std.specs.Prelude.{◌≡◌, All, IfOk, length, map};
ghost use Rattle.path_service.specs.Callers.{fresh, AreNumbered};
ghost use Rattle.path_service.specs.Services.{started_on};
ghost use Rattle.path_service.specs.inner.Channels.{id_of, ids_from};
ghost use Rattle.path_service.specs.inner.Opening.{IsNew};

use crate::callers::{Caller, Callers};
use crate::channels::Channel;
use crate::drivers::Driver;
use grid_versions::MapSpec;
use nav_types::{NoMemory, Sequence};
use request_lanes::lane;
use std::alloc::Global;
use std::sync::Wait;
use turn_core::{bare_version, empty_lists};

/// The two sides of all lanes of a service.
#[derive(Drop)]
struct ServiceLanes {
    channels: Vec<Channel>,
    callers: Callers,
}

/// Starts a service on a map where nothing stands yet: its driver and its callers, one for each number of the map's
/// callers. It refuses for want of memory alone.
pub fn start_service(
    rt: &impl Wait,
    alloc: Global,
    spec: MapSpec,
) -> Result<(Driver, Callers), NoMemory>
    ensures driver { IfOk result (λ made. made.0 ≡ started_on spec made.0.callers) }
    ensures callers { IfOk result (λ made. made.1 ≡ map fresh made.0.callers) }
    ensures count { IfOk result (λ made. length made.0.callers ≡ spec.callers) }
    ensures numbers { IfOk result (λ made. AreNumbered 0 made.0.callers) }
{
    let version = bare_version(alloc, &spec)?;
    let all_pending = empty_lists(alloc, usize::from(spec.callers()))?;
    let ServiceLanes { channels, callers } = open_lanes(rt, alloc, spec.callers())?;
    let driver = Driver::new(alloc, spec, version, channels, all_pending);
    Ok((driver, callers))
}

/// The lanes of so many callers.
fn open_lanes(rt: &impl Wait, alloc: Global, count: u8) -> Result<ServiceLanes, NoMemory>
    ensures count { IfOk result (λ lanes. length lanes.channels.items ≡ count) }
    ensures channels { IfOk result (λ lanes. All IsNew lanes.channels.items) }
    ensures callers { IfOk result (λ lanes. lanes.callers ≡ map fresh (ids_from 0 lanes.channels.items)) }
{
    let room = usize::from(count);
    let mut channels = Vec::with_capacity(alloc, room)?;
    let mut callers = Vec::with_capacity(alloc, room)?;
    for number in 0..count {
        let (channel, caller) = open_pair(rt, alloc, number)?;
        channels.push_reserved(channel);
        callers.push_reserved(caller);
    }
    Ok(ServiceLanes {
        channels,
        callers: Sequence::from(callers),
    })
}

/// The two lanes of the caller of a number: the driver's ends of them, and the caller.
fn open_pair(rt: &impl Wait, alloc: Global, number: u8) -> Result<(Channel, Caller), NoMemory>
    ensures channel { IfOk result (λ made. IsNew made.0) }
    ensures caller { IfOk result (λ made. made.1 ≡ fresh (id_of number made.0)) }
{
    let (post_in, post_out) = lane(rt, alloc)?;
    let (reply_in, reply_out) = lane(rt, alloc)?;
    let channel = Channel {
        posts: post_out,
        replies: reply_in,
    };
    Ok((channel, Caller::new(number, post_in, reply_out)))
}
