//! The posts of post lines.
ghost use Rattle.std.specs.Prelude.{◌≡◌, option_map};
ghost use Rattle.serde_json.specs.View.{view};
ghost use Rattle.script_text.specs.Forms as line;

use crate::causes::Key;
use crate::forms::values::{
    name_under, number_under, point_under, rectangle_under, round_under, whole_under,
};
use crate::goals::goal_under;
use crate::table::Form;
use crate::versions::FIRST_WITH_MASKS;
use obstruction_shapes::{Obstruction, Shape};
use posts::{Edit, PathRequest, Post, RegionQuery, Request};
use serde_json::Value;

/// The post of a line that has the keys of this form.
pub(crate) fn post_in(version: u8, value: &Value, form: Form) -> Option<Post>
    ensures { result ≡ line.post_in version (view value.now) form }
{
    match form {
        Form::AddUnit => edits(add_of(version, unit_of(value), value)),
        Form::AddSquare => edits(add_of(version, square_of(value), value)),
        Form::Remove => edits(remove_of(value)),
        Form::Move => edits(move_of(value)),
        Form::Path => asks(path_of(version, value)),
        Form::Region => asks(region_of(value)),
        Form::Map | Form::Base | Form::End => None,
    }
}

/// The post of an edit.
fn edits(found: Option<Edit>) -> Option<Post>
    ensures { result ≡ option_map Post.Edit found }
{
    match found {
        Some(edit) => Some(Post::Edit(edit)),
        None => None,
    }
}

/// The post of a request.
fn asks(found: Option<Request>) -> Option<Post>
    ensures { result ≡ option_map Post.Ask found }
{
    match found {
        Some(request) => Some(Post::Ask(request)),
        None => None,
    }
}

/// The unit of an add line.
fn unit_of(value: &Value) -> Option<Shape>
    ensures { result ≡ line.unit_of (view value.now) }
{
    round_under(value, Key::Unit).map(|(x, z, half)| Shape::Unit { x, z, half })
}

/// The square of an add line.
fn square_of(value: &Value) -> Option<Shape>
    ensures { result ≡ line.square_of (view value.now) }
{
    rectangle_under(value, Key::Square).map(|rectangle| Shape::Square(rectangle))
}

/// The edit of an add line with this shape.
#[tactic(auto, unfolding(crate::specs::Forms::add_of))]
fn add_of(version: u8, shape: Option<Shape>, value: &Value) -> Option<Edit>
    ensures { result ≡ line.add_of version shape (view value.now) }
{
    let (Some(id), Some(shape)) = (number_under(value, Key::Add), shape) else {
        return None;
    };
    match mask_of(version, value) {
        Some(mask) => Some(Edit::Add {
            id,
            obstruction: Obstruction { shape, mask },
        }),
        None => None,
    }
}

/// The mask of an add line; without one it is of every class.
#[tactic(auto, unfolding(crate::specs::Forms::mask_of))]
fn mask_of(version: u8, value: &Value) -> Option<u16>
    ensures { result ≡ line.mask_of version (view value.now) }
{
    if version < FIRST_WITH_MASKS {
        return Some(u16::MAX);
    }
    match whole_under(0, u64::from(u16::MAX), value, Key::Mask) {
        Some(mask) => Some(mask as u16),
        None => None,
    }
}

/// The edit of a remove line.
#[tactic(auto, unfolding(crate::specs::Forms::remove_of))]
fn remove_of(value: &Value) -> Option<Edit>
    ensures { result ≡ line.remove_of (view value.now) }
{
    match number_under(value, Key::Remove) {
        Some(id) => Some(Edit::Remove { id }),
        None => None,
    }
}

/// The edit of a move line.
#[tactic(auto, unfolding(crate::specs::Forms::move_of))]
fn move_of(value: &Value) -> Option<Edit>
    ensures { result ≡ line.move_of (view value.now) }
{
    match (number_under(value, Key::Move), point_under(value, Key::To)) {
        (Some(id), Some((x, z))) => Some(Edit::Move { id, x, z }),
        _ => None,
    }
}

/// The request of a path line.
#[tactic(auto, unfolding(crate::specs::Forms::path_of))]
fn path_of(version: u8, value: &Value) -> Option<Request>
    ensures { result ≡ line.path_of version (view value.now) }
{
    let (Some((x, z)), Some(goal)) = (
        point_under(value, Key::From),
        goal_under(version, value, Key::Goal),
    ) else {
        return None;
    };
    match name_under(value, Key::Path) {
        Some(class) => Some(Request::Path(PathRequest { class, x, z, goal })),
        None => None,
    }
}

/// The request of a region line.
#[tactic(auto, unfolding(crate::specs::Forms::region_of))]
fn region_of(value: &Value) -> Option<Request>
    ensures { result ≡ line.region_of (view value.now) }
{
    match (name_under(value, Key::Region), point_under(value, Key::At)) {
        (Some(class), Some((x, z))) => Some(Request::Region(RegionQuery { class, x, z })),
        _ => None,
    }
}
