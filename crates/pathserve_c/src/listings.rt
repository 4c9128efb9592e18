//! All that stands, by number.
ghost use Rattle.std.specs.Prelude.{◌≡◌, IfOk, Some};
ghost use Rattle.obstruction_shapes.specs.declared.shapes.Obstruction.{Obstruction};
ghost use Rattle.flat_posts.specs.Pages.{IsPage};
ghost use Rattle.pathserve_c.specs.Handles.{IsHandle, state_of};
ghost use Rattle.pathserve_c.specs.Listings.{AreListed, ListsAs, add_of, adds_of};

use crate::handles::Handle;
use crate::states::State;
use crate::statuses::{CLOSED, OTHER, PostFault, status_of_posts};
use flat_posts::{FlatPost, flat_edit};
use grid_versions::Version;
use nav_types::{NoMemory, Sequence};
use obstruction_shapes::Obstruction;
use posts::Edit;
use std::alloc::Global;

/// Copies what stands, as the posts by which caller 0 adds it, by rising number and from the one of a place on.
#[unsafe(no_mangle)]
pub extern "C" fn pathserve_standing(
    alloc: Global,
    view: &mut Handle,
    first: u64,
    posts: &mut [FlatPost],
    whole: &mut u64,
) -> u32
    requires handle { IsHandle view.old }
    ensures handle { IsHandle view.new }
    ensures same { state_of view.new ≡ state_of view.old }
    ensures listed { AreListed (state_of view.old) first posts.old posts.new whole.old whole.new result }
{
    let Some(state) = view.take(alloc) else {
        return CLOSED;
    };
    let status = list_in(alloc, &state, first, posts, whole);
    view.put(state);
    status
}

/// Copies what stands in what a handle shows; anything else than a view refuses.
fn list_in(alloc: Global, state: &State, first: u64, posts: &mut [FlatPost], whole: &mut u64) -> u32
    ensures { AreListed (Some state.now) first posts.old posts.new whole.old whole.new result }
{
    match state {
        State::View(version) => status_of_posts(list(alloc, version, first, posts, whole)),
        State::Text(_) | State::Structs(_) | State::Finder(_) => OTHER,
    }
}

/// Copies what stands on a version. Where there is no memory nothing is written.
fn list(
    alloc: Global,
    version: &Version,
    first: u64,
    posts: &mut [FlatPost],
    whole: &mut u64,
) -> Result<(), PostFault>
    ensures { ListsAs version.now first posts.old posts.new whole.old whole.new result }
{
    let Ok(adds) = adds_of(alloc, version) else {
        return Err(PostFault::NoMemory);
    };
    *whole = adds.len() as u64;
    write_page(adds.as_slice(), first, posts);
    Ok(())
}

/// What stands on a version, as the posts by which caller 0 adds it, by rising number.
fn adds_of(alloc: Global, version: &Version) -> Result<Sequence<FlatPost>, NoMemory>
    ensures { IfOk result (λ adds. adds ≡ adds_of version.now.standing) }
{
    let listed = version.shapes().listed(alloc)?;
    let mut adds = Sequence::new(alloc);
    for (id, obstruction) in listed.entries() {
        adds.push(add_of(id, *obstruction))?;
    }
    Ok(adds)
}

/// The post by which caller 0 adds an obstruction under a number.
fn add_of(id: u32, obstruction: Obstruction) -> FlatPost
    ensures { result ≡ add_of (id, obstruction) }
{
    flat_edit(0, &Edit::Add { id, obstruction })
}

/// Writes posts from the one of a place on to the head of the buffer, and gives how many: as many as there are and as it
/// holds.
fn write_page(all: &[FlatPost], first: u64, buffer: &mut [FlatPost]) -> usize
    ensures { IsPage first all.now buffer.old buffer.new result }
{
    let passed = first.min(all.len() as u64) as usize;
    let wanted = &all[passed..];
    let count = wanted.len().min(buffer.len());
    buffer[..count].copy_from_slice(&wanted[..count]);
    count
}
