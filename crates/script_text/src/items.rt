//! What the lines of a script give.
use posts::{BaseRects, MapSpec, TurnPosts};

/// What a line of a script gives. The line of a post gives nothing by itself: its turn's end line gives the posts.
#[derive(Drop)]
pub enum ScriptItem {
    /// The map line: the map, without base rectangles.
    Map(MapSpec),
    /// A base line: rectangles of the map's base.
    Base(BaseRects),
    /// An end line: the posts of its turn, one list for each caller.
    Turn(TurnPosts),
}
