//! The canonical lines of posts and the end line of a turn. Each call appends a text; where there is no memory, what stands
//! is a beginning of it.
ghost use Rattle.std.specs.Prelude.{◌≡◌, ◌++◌, OnOk};
ghost use Rattle.serde_json.specs.Written.{compact_text};
ghost use Rattle.posts.specs.declared.posts.Post.TheVariants as kind;
ghost use Rattle.script_text.specs.Canon as canon;
ghost use Rattle.script_text.specs.ReadsBack.{IsPostValue};

use crate::canon::form_lines::{LineValue, push_form};
use crate::table::Form;
use crate::versions::NEWEST_VERSION;
use nav_types::{Bytes, NoMemory};
use obstruction_shapes::Shape;
use posts::{Edit, Post, Request};

/// Appends the line of a post, without its newline.
pub(crate) fn push_post(
    text: &mut Bytes,
    version: u8,
    caller: u64,
    post: &Post,
) -> Result<(), NoMemory>
    ensures text { OnOk result (text.new ≡ text.old ++ compact_text (canon.post_json version caller post.now)) }
    ensures values { OnOk result (IsPostValue post.now) }
{
    match post {
        Post::Edit(edit) => push_edit(text, version, caller, *edit),
        Post::Ask(request) => push_request(text, version, caller, request),
    }
}

/// Appends the line of an edit, without its newline.
#[tactic(auto, unfolding(crate::specs::Canon::post_json))]
fn push_edit(text: &mut Bytes, version: u8, caller: u64, edit: Edit) -> Result<(), NoMemory>
    ensures text { OnOk result (text.new ≡ text.old ++ compact_text (canon.post_json version caller (kind.Edit edit))) }
    ensures values { OnOk result (IsPostValue (kind.Edit edit)) }
{
    let caller = LineValue::Whole(caller);
    match edit {
        Edit::Add { id, obstruction } => {
            let number = LineValue::Whole(u64::from(id));
            let shape = LineValue::Shape(obstruction.shape);
            let mask = LineValue::Whole(u64::from(obstruction.mask));
            let form = add_form(obstruction.shape);
            push_form(text, version, form, &[caller, number, shape, mask])
        }
        Edit::Remove { id } => {
            let number = LineValue::Whole(u64::from(id));
            push_form(text, version, Form::Remove, &[caller, number])
        }
        Edit::Move { id, x, z } => {
            let number = LineValue::Whole(u64::from(id));
            let to = LineValue::Point(x, z);
            push_form(text, version, Form::Move, &[caller, number, to])
        }
    }
}

/// The form of the line that adds an obstruction of this shape.
fn add_form(shape: Shape) -> Form
    ensures { result ≡ canon.add_form shape }
{
    match shape {
        Shape::Unit { .. } => Form::AddUnit,
        Shape::Square(_) => Form::AddSquare,
    }
}

/// Appends the line of a request, without its newline.
#[tactic(auto, unfolding(crate::specs::Canon::post_json))]
fn push_request(
    text: &mut Bytes,
    version: u8,
    caller: u64,
    request: &Request,
) -> Result<(), NoMemory>
    ensures text { OnOk result (text.new ≡ text.old
        ++ compact_text (canon.post_json version caller (kind.Ask request.now))) }
    ensures values { OnOk result (IsPostValue (kind.Ask request.now)) }
{
    let caller = LineValue::Whole(caller);
    match request {
        Request::Path(request) => {
            let class = LineValue::Name(&request.class);
            let from = LineValue::Point(request.x, request.z);
            let goal = LineValue::Goal(request.goal);
            push_form(text, version, Form::Path, &[caller, class, from, goal])
        }
        Request::Region(query) => {
            let class = LineValue::Name(&query.class);
            let at = LineValue::Point(query.x, query.z);
            push_form(text, version, Form::Region, &[caller, class, at])
        }
    }
}

/// Appends the end line of a turn, without its newline.
#[tactic(auto, unfolding(crate::specs::Canon::end_json))]
pub(crate) fn push_end(text: &mut Bytes, turn: u64) -> Result<(), NoMemory>
    ensures { OnOk result (text.new ≡ text.old ++ compact_text (canon.end_json turn)) }
{
    push_form(text, NEWEST_VERSION, Form::End, &[LineValue::Whole(turn)])
}
