//! What stands as a script of one turn.
ghost use Rattle.std.specs.Prelude.{◌≡◌, ◌≤◌, ◌∷◌, [], IfOk, OnOk, length};
ghost use Rattle.obstruction_shapes.specs.declared.shapes.Obstruction.{Obstruction};
ghost use Rattle.script_text.specs.ReadsBack.{IsWithinLimits, ReadsAs, canon_script};
ghost use Rattle.match_play.specs.Saved.{add_of, adds_of, in_newest, saved, snapshot_of, turn_by_first};

use grid_versions::Version;
use nav_types::{Bytes, NoMemory, Sequence};
use obstruction_shapes::Obstruction;
use posts::{Edit, MapSpec, Post, Posts, TurnPosts, empty_lists, push_some};
use script_text::{write_journal, write_map};
use std::alloc::Global;

/// The newest version of a script.
const NEWEST_VERSION: u8 = 3;

/// What stands on a version as a script (`snapshot_of`): the canonical text of its map, in the newest version of scripts, and
/// of one turn in which caller 0 adds all that stands, by rising number. Where it is within the limits of an input it gives
/// that map and that turn to whoever reads it.
pub fn snapshot(alloc: Global, version: &Version) -> Result<Bytes, NoMemory>
    ensures text { IfOk result (λ text. text ≡ snapshot_of version.now) }
    ensures reads_back { OnOk result (IsWithinLimits (snapshot_of version.now)
        → ReadsAs (in_newest version.now.map) (saved version.now.map version.now.standing) (snapshot_of version.now)) }
{
    let map = in_newest(alloc, version.map())?;
    let turn = adding_turn(alloc, version)?;
    one_turn_script(alloc, &map, &turn)
}

/// The turn in which caller 0 adds all that stands on a version, by rising number, and nobody else posts.
pub(crate) fn adding_turn(alloc: Global, version: &Version) -> Result<TurnPosts, NoMemory>
    ensures turn { IfOk result (λ turn. turn ≡ turn_by_first version.now.map.callers (adds_of version.now.standing)) }
    ensures callers { OnOk result (1 ≤ version.now.map.callers) }
{
    let adds = adds_of(alloc, version)?;
    let mut lists = empty_lists(alloc, usize::from(version.map().callers()))?;
    lists[0] = adds;
    Ok(Sequence::from(lists))
}

/// The adds of all that stands on a version, by rising number.
fn adds_of(alloc: Global, version: &Version) -> Result<Posts, NoMemory>
    ensures { IfOk result (λ adds. adds ≡ adds_of version.now.standing) }
{
    let listed = version.shapes().listed(alloc)?;
    let mut adds = Sequence::new(alloc);
    for (id, obstruction) in listed.entries() {
        push_some(&mut adds, Some(add_of(id, *obstruction)))?;
    }
    Ok(adds)
}

/// The add of an obstruction under a number.
fn add_of(id: u32, obstruction: Obstruction) -> Post
    ensures { result ≡ add_of (id, obstruction) }
{
    Post::Edit(Edit::Add { id, obstruction })
}

/// The canonical script of a map of the newest version and of one turn.
fn one_turn_script(alloc: Global, map: &MapSpec, turn: &TurnPosts) -> Result<Bytes, NoMemory>
    requires newest { map.now.version ≡ 3 }
    requires lists { length turn.now ≡ map.now.callers }
    ensures text { IfOk result (λ text. text ≡ canon_script map.now (turn.now ∷ [])) }
    ensures reads_back { OnOk result (IsWithinLimits (canon_script map.now (turn.now ∷ []))
        → ReadsAs map.now (turn.now ∷ []) (canon_script map.now (turn.now ∷ []))) }
{
    let mut text = write_map(alloc, map)?;
    let posts = write_journal(alloc, map, 1, turn)?;
    text.extend(posts.as_slice())?;
    Ok(text)
}

/// The same map in the newest version of scripts.
fn in_newest(alloc: Global, map: &MapSpec) -> Result<MapSpec, NoMemory>
    ensures { IfOk result (λ newest. newest ≡ in_newest map.now) }
{
    let classes = map.classes().copy(alloc)?;
    let base = map.base().copy(alloc)?;
    match MapSpec::new(NEWEST_VERSION, map.size(), map.callers(), classes, base) {
        Some(newest) => Ok(newest),
        None => unreachable!(),
    }
}
