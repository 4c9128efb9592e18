//! The canonical text of scripts.
ghost use Rattle.std.specs.Prelude.{◌≡◌, ◌++◌, All, IfOk, IsOk, OnOk};
ghost use Rattle.script_text.specs.Canon as canon;
ghost use Rattle.script_text.specs.ReadsBack.{IsMapValue, IsPostValue, ArePostValues};

mod form_lines;
mod maps;
pub(crate) mod pieces;
mod post_lines;

use nav_types::{Bytes, NoMemory};
use posts::{MapSpec, Post, TurnPosts};
use std::alloc::Global;

/// The canonical text of a map (`canon_map`): the map line and the base lines, with 65,536 rectangles to a line.
#[tactic(auto, unfolding(crate::specs::Canon::canon_map, crate::specs::Canon::line))]
pub fn write_map(alloc: Global, map: &MapSpec) -> Result<Bytes, NoMemory>
    ensures text { IfOk result (λ text. text ≡ canon.canon_map map.now) }
    ensures values { IsOk result → IsMapValue map.now }
{
    let mut text = Bytes::new(alloc);
    maps::push_map(&mut text, map)?;
    text.push(b'\n')?;
    maps::push_base_lines(&mut text, map.base().as_slice())?;
    Ok(text)
}

/// The canonical text of a turn of this number (`canon_journal`): the lines of the callers' posts, caller by caller,
/// and the end line. The map's version has lines for the posts (`HaveLines`, which `have_lines` tests): below version 2
/// each mask is of every class, and below version 3 there is no move and no goal by obstruction.
#[tactic(auto, unfolding(crate::specs::Canon::canon_journal, crate::specs::Canon::line))]
pub fn write_journal(
    alloc: Global,
    map: &MapSpec,
    turn: u64,
    posts: &TurnPosts,
) -> Result<Bytes, NoMemory>
    requires { canon.HaveLines map.now.version posts.now }
    ensures text { IfOk result (λ text. text ≡ canon.canon_journal map.now turn posts.now) }
    ensures values { IsOk result → ArePostValues posts.now }
{
    let mut text = Bytes::new(alloc);
    push_callers(&mut text, map.version(), posts)?;
    post_lines::push_end(&mut text, turn)?;
    text.push(b'\n')?;
    Ok(text)
}

/// Appends the lines of the posts, caller by caller.
fn push_callers(text: &mut Bytes, version: u8, turn: &TurnPosts) -> Result<(), NoMemory>
    ensures text { OnOk result (text.new ≡ text.old ++ canon.canon_callers version 0 turn.now) }
    ensures values { OnOk result (ArePostValues turn.now) }
{
    let lists = turn.as_slice();
    for caller in 0..lists.len() {
        push_posts(text, version, caller as u64, lists[caller].as_slice())?;
    }
    Ok(())
}

/// Appends the lines of a caller's posts.
#[tactic(auto, unfolding(crate::specs::Canon::canon_posts, crate::specs::Canon::line))]
fn push_posts(text: &mut Bytes, version: u8, caller: u64, posts: &[Post]) -> Result<(), NoMemory>
    ensures text { OnOk result (text.new ≡ text.old ++ canon.canon_posts version caller posts.now) }
    ensures values { OnOk result (All IsPostValue posts.now) }
{
    for post in posts {
        post_lines::push_post(text, version, caller, post)?;
        text.push(b'\n')?;
    }
    Ok(())
}
