//! What the versions of a script have.
ghost use Rattle.std.specs.Prelude.{◌≡◌, ◌↔◌, IsTrue};
ghost use Rattle.std.specs.List.{list_all};
ghost use Rattle.script_text.specs.Canon as canon;

use goal_shapes::GoalSpec;
use posts::{Edit, MapSpec, Post, Posts, Request, TurnPosts};

/// The first version with a mask in each add line.
pub(crate) const FIRST_WITH_MASKS: u8 = 2;

/// The first version with move lines and goals by obstruction.
pub(crate) const FIRST_WITH_MOVES: u8 = 3;

/// The newest version of a script.
pub(crate) const NEWEST_VERSION: u8 = 3;

/// Whether the map's version has a line for each of the posts (`HaveLines`): before version 2 the mask of an added
/// obstruction is of every class, and before version 3 there is no move and no goal by obstruction.
pub fn have_lines(map: &MapSpec, posts: &TurnPosts) -> bool
    ensures { IsTrue result ↔ canon.HaveLines map.now.version posts.now }
{
    are_turn_of(map.version(), posts.as_slice())
}

/// Whether the version has a line for each of a turn's posts.
fn are_turn_of(version: u8, turn: &[Posts]) -> bool
    ensures { result ≡ list_all (λ posts. list_all (canon.is_post_of version) posts) turn.now }
{
    turn.iter().all(|posts| are_posts_of(version, posts))
}

/// Whether the version has a line for each of a caller's posts.
fn are_posts_of(version: u8, posts: &Posts) -> bool
    ensures { result ≡ list_all (canon.is_post_of version) posts.now }
{
    posts
        .as_slice()
        .iter()
        .all(|post| is_post_of(version, post))
}

/// Whether the version has a line for the post.
fn is_post_of(version: u8, post: &Post) -> bool
    ensures { result ≡ canon.is_post_of version post.now }
{
    match post {
        Post::Edit(Edit::Add { obstruction, .. }) => {
            version >= FIRST_WITH_MASKS || obstruction.mask == u16::MAX
        }
        Post::Edit(Edit::Remove { .. }) => true,
        Post::Edit(Edit::Move { .. }) => version >= FIRST_WITH_MOVES,
        Post::Ask(Request::Path(request)) => is_goal_of(version, request.goal),
        Post::Ask(Request::Region(_)) => true,
    }
}

/// Whether the version has the goal.
fn is_goal_of(version: u8, goal: GoalSpec) -> bool
    ensures { result ≡ canon.is_goal_of version goal }
{
    match goal {
        GoalSpec::Plain(_) => true,
        GoalSpec::Obstruction { .. } => version >= FIRST_WITH_MOVES,
    }
}
