//! Posts, the requests among them, and lists of them.
ghost use Rattle.std.specs.Prelude.{◌≡◌, ◌<◌, ◌^◌, [], ◌∷◌, ◌++◌, IfOk, OnOk, OnErr, length, option_to_list, replicate, slice_set};
ghost use Rattle.posts.specs.Posts.{request_of, edit_of, post_count};
ghost use Rattle.posts.specs.Callers.{list_of};

use crate::edits::Edit;
use class_config::ClassName;
use fixed_point::Fixed;
use goal_shapes::GoalSpec;
use nav_types::{NoMemory, Sequence};
use std::alloc::Global;

/// What a caller posts. It holds no memory.
#[derive(Clone, Copy, Debug)]
pub enum Post {
    /// An edit of the standing obstructions.
    Edit(Edit),
    /// A request: all edits of its turn count for it.
    Ask(Request),
}

/// What a caller asks for. It holds no memory.
#[derive(Clone, Copy, Debug)]
pub enum Request {
    /// Asks for a path.
    Path(PathRequest),
    /// Asks for the region and the area of a place.
    Region(RegionQuery),
}

/// Asks for a path of a class from the point (`x`, `z`) to a goal.
#[derive(Clone, Copy, Debug)]
pub struct PathRequest {
    pub class: ClassName,
    pub x: Fixed,
    pub z: Fixed,
    pub goal: GoalSpec,
}

/// Asks for the region and the area of a class at the point (`x`, `z`).
#[derive(Clone, Copy, Debug)]
pub struct RegionQuery {
    pub class: ClassName,
    pub x: Fixed,
    pub z: Fixed,
}

/// The posts of one caller, in order.
pub type Posts = Sequence<Post>;

/// A turn: the posts of each caller, by the callers' numbers.
pub type TurnPosts = Sequence<Posts>;

/// Turns, one after another.
pub type Journal = Sequence<TurnPosts>;

/// The requests of a turn by their job numbers: caller by caller, in the order of the posts.
pub type Jobs = Sequence<Request>;

impl Post {
    /// The request that the post is, where it is one (`request_of`).
    pub fn request(&self) -> Option<Request>
        ensures { result ≡ request_of self.now }
    {
        match self {
            Post::Edit(_) => None,
            Post::Ask(request) => Some(*request),
        }
    }

    /// The edit that the post is, where it is one (`edit_of`).
    pub fn edit(&self) -> Option<Edit>
        ensures { result ≡ edit_of self.now }
    {
        match self {
            Post::Edit(edit) => Some(*edit),
            Post::Ask(_) => None,
        }
    }
}

/// An empty list of posts for each of so many callers.
pub fn empty_lists(alloc: Global, callers: usize) -> Result<Vec<Posts>, NoMemory>
    ensures { IfOk result (λ posted. posted.items ≡ replicate callers []) }
{
    let mut posted = Vec::new(alloc);
    for _caller in 0..callers {
        posted.push(Sequence::new(alloc))?;
    }
    Ok(posted)
}

/// How many posts a turn has, over all callers.
pub fn count_posts(turn: &[Posts]) -> u64
    requires { post_count turn.now < 2 ^ 64 }
    ensures { result ≡ post_count turn.now }
{
    let mut count = 0;
    for posts in turn {
        count += posts.len() as u64;
    }
    count
}

/// Appends a post to those of a caller.
pub fn push_post(posted: &mut Vec<Posts>, caller: usize, post: Post) -> Result<(), NoMemory>
    requires { caller < length posted.old.items }
    ensures ok { OnOk result (posted.new.items
        ≡ slice_set posted.old.items caller (list_of posted.old.items caller ++ post ∷ [])) }
    ensures err { OnErr result (posted.new.items ≡ posted.old.items) }
{
    push_some(&mut posted[caller], Some(post))
}

/// Appends the item, where there is one.
pub fn push_some<T: Drop>(items: &mut Sequence<T>, item: Option<T>) -> Result<(), NoMemory>
    ensures ok { OnOk result (items.new ≡ items.old ++ option_to_list item) }
    ensures err { OnErr result (items.new ≡ items.old) }
{
    match item {
        Some(item) => Ok(items.push(item)?),
        None => Ok(()),
    }
}
