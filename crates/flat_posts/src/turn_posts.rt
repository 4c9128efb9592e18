//! The posts of a turn, read from flat ones.
ghost use Rattle.std.specs.Prelude.{◌≡◌, ◌<◌, ◌++◌, ◌∷◌, [], ℕ, All, IfOk, IsErrOf, List, OnOk};
ghost use Rattle.posts.specs.declared.posts.Post.{Post};
ghost use Rattle.flat_posts.specs.Posts.{IsPost};
ghost use Rattle.flat_posts.specs.TurnPosts.{ArePosts, turn_of};

use crate::posted::FlatPost;
use nav_types::{NoMemory, Sequence};
use posts::{MapSpec, Post, TurnPosts, empty_lists, push_post, push_some};
use std::alloc::Global;

/// Posts, each with its caller.
pub type CallerPosts = Sequence<(u8, Post)>;

/// Why flat posts were not read.
#[derive(Clone, Copy, Debug, PartialEq, Eq)]
pub enum PostsFault {
    /// One of them is no post of the map.
    NotPost,
    /// There was no memory.
    NoMemory,
}

/// The posts of the map that these flat ones are, in order (`ArePosts`). `NotPost` only where one of them is none.
pub fn read_posts(
    alloc: Global,
    map: &MapSpec,
    flats: &[FlatPost],
) -> Result<CallerPosts, PostsFault>
    ensures posts { IfOk result (ArePosts map.now flats.now) }
    ensures not_post { IsErrOf result PostsFault.NotPost → (entries : List (ℕ × Post)) → ¬ ArePosts map.now flats.now entries }
    ensures callers { IfOk result (All (λ entry. entry.0 < map.now.callers)) }
{
    let mut read = Sequence::new(alloc);
    for flat in flats {
        match read_post(&mut read, map, flat) {
            Ok(()) => {}
            Err(fault) => return Err(fault),
        }
    }
    Ok(read)
}

/// Reads a post behind others.
fn read_post(read: &mut CallerPosts, map: &MapSpec, flat: &FlatPost) -> Result<(), PostsFault>
    ensures read { OnOk result ((entry : ℕ × Post) × (IsPost map.now flat.now entry.0 entry.1 × (read.new ≡ read.old ++ entry ∷ []))) }
    ensures not_post { IsErrOf result PostsFault.NotPost → (entry : ℕ × Post) → ¬ IsPost map.now flat.now entry.0 entry.1 }
{
    let Ok(entry) = flat.read(map) else {
        return Err(PostsFault::NotPost);
    };
    match push_some(read, Some(entry)) {
        Ok(()) => Ok(()),
        Err(NoMemory) => Err(PostsFault::NoMemory),
    }
}

/// The turn of these posts of so many callers (`turn_of`). It copies each of them.
pub fn turn_of(alloc: Global, callers: usize, entries: &[(u8, Post)]) -> Result<TurnPosts, NoMemory>
    requires { All (λ entry. entry.0 < callers) entries.now }
    ensures { IfOk result (λ turn. turn ≡ turn_of callers entries.now) }
{
    let mut lists = empty_lists(alloc, callers)?;
    for entry in entries {
        push_post(&mut lists, usize::from(entry.0), entry.1)?;
    }
    Ok(Sequence::from(lists))
}
