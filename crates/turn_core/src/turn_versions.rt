//! Versions under turns: all that the machine asks of maps.
ghost use Rattle.std.specs.Prelude.{◌≡◌, ◌++◌, IfOk, OnOk, filter_map, flat_map, length};
ghost use Rattle.nav_types.specs.Regions.{HasRelabelled};
ghost use Rattle.posts.specs.Posts.{edit_of, jobs, requests};
ghost use Rattle.grid_versions.specs.Versions.{passes_of};
ghost use Rattle.turn_core.specs.Words.{bare};
ghost use Rattle.turn_core.specs.Turns.{after_turn};
ghost use Rattle.turn_core.specs.inner.ReplyLists.{edits_told_in};

use grid_versions::{EditReplies, Edits, MapSpec, Next, Version};
use nav_types::{NoMemory, Sequence};
use obstruction_store::{Store, all_fit_in_empty};
use posts::{Jobs, Post, TurnPosts, push_some};
use std::alloc::Global;

/// A version after a turn, the replies to the turn's edits, caller by caller, and the number of pairs of class and
/// chunk that they changed.
#[derive(Drop)]
pub(crate) struct Advanced {
    pub version: Version,
    pub edits: EditReplies,
    pub relabelled: u32,
}

/// The version of a map on which nothing stands: the one before the first turn. It refuses for want of memory alone.
#[tactic(auto, unfolding(crate::specs::Words::bare))]
pub fn bare_version(alloc: Global, map: &MapSpec) -> Result<Version, NoMemory>
    ensures map { IfOk result (λ version. version.map ≡ map.now) }
    ensures standing { IfOk result (λ version. version.standing ≡ bare) }
{
    all_fit_in_empty();
    let nothing = Store::new(alloc)?;
    Version::new(alloc, map, &nothing)
}

/// The version after a turn.
pub(crate) fn after_turn(
    alloc: Global,
    version: &Version,
    turn: &TurnPosts,
) -> Result<Advanced, NoMemory>
    ensures map { IfOk result (λ made. made.version.map ≡ version.now.map) }
    ensures standing { IfOk result (λ made. made.version.standing
        ≡ after_turn version.now.map version.now.standing turn.now) }
    ensures edits { IfOk result (λ made. made.edits ≡ edits_told_in version.now.map version.now.standing turn.now) }
    ensures relabelled { IfOk result (λ made. HasRelabelled (length version.now.map.classes) (passes_of version.now)
        (passes_of made.version) made.relabelled) }
{
    let edits = edits_of(alloc, turn)?;
    let Next {
        version,
        replies,
        relabelled,
    } = version.after(alloc, &edits)?;
    Ok(Advanced {
        version,
        edits: replies,
        relabelled,
    })
}

/// The edits of a turn, caller by caller.
fn edits_of(alloc: Global, turn: &TurnPosts) -> Result<Edits, NoMemory>
    ensures { IfOk result (λ edits. edits ≡ flat_map (filter_map edit_of) turn.now) }
{
    let mut edits = Sequence::new(alloc);
    for posts in turn.as_slice() {
        push_edits(&mut edits, posts.as_slice())?;
    }
    Ok(edits)
}

/// Appends the edits among posts.
#[tactic(auto, using(crate::proofs::TurnEdits::filter_map_more))]
fn push_edits(edits: &mut Edits, posts: &[Post]) -> Result<(), NoMemory>
    ensures { OnOk result (edits.new ≡ edits.old ++ filter_map edit_of posts.now) }
{
    for post in posts {
        push_some(edits, post.edit())?;
    }
    Ok(())
}

/// The jobs of a turn.
pub(crate) fn jobs_of(alloc: Global, turn: &TurnPosts) -> Result<Jobs, NoMemory>
    ensures { IfOk result (λ made. made ≡ jobs turn.now) }
{
    let mut made = Sequence::new(alloc);
    for posts in turn.as_slice() {
        push_requests(&mut made, posts.as_slice())?;
    }
    Ok(made)
}

/// Appends the requests among posts.
#[tactic(auto, using(crate::proofs::TurnEdits::filter_map_more))]
fn push_requests(made: &mut Jobs, posts: &[Post]) -> Result<(), NoMemory>
    ensures { OnOk result (made.new ≡ made.old ++ requests posts.now) }
{
    for post in posts {
        push_some(made, post.request())?;
    }
    Ok(())
}
