//! Requests in flat posts.
ghost use Rattle.std.specs.Prelude.{◌≡◌, option_and_then};
ghost use Rattle.class_config.specs.Classes.{name_at};
ghost use Rattle.flat_posts.specs.Posts as form;
ghost use Rattle.flat_posts.specs.inner.Reading as reading;

use crate::edits::edit_of;
use crate::goals::{goal_of, with_goal};
use crate::post_kinds::{PATH, REGION};
use crate::posted::{FlatPost, bare_post};
use class_config::{ClassName, ClassTable};
use fixed_point::Fixed;
use nav_types::Class;
use posts::{PathRequest, Post, RegionQuery, Request};

/// The flat form of a request of a caller for the class of a number.
pub fn flat_request(caller: u8, class_number: u8, request: &Request) -> FlatPost
    ensures { result ≡ form.flat_request caller class_number request.now }
{
    match request {
        Request::Path(request) => {
            let asked = asked_at(PATH, caller, class_number, request.x, request.z);
            with_goal(asked, &request.goal)
        }
        Request::Region(query) => asked_at(REGION, caller, class_number, query.x, query.z),
    }
}

/// A flat post of a kind that asks for something for a class at a point.
fn asked_at(kind: u8, caller: u8, class_number: u8, x: Fixed, z: Fixed) -> FlatPost
    ensures { result ≡ form.asked_at kind caller class_number x z }
{
    FlatPost {
        class_number,
        x: x.raw(),
        z: z.raw(),
        ..bare_post(kind, caller)
    }
}

/// The name of the class that a request is for.
pub fn asked_class(request: &Request) -> &ClassName
    ensures { result.now ≡ form.asked_class request.now }
{
    match request {
        Request::Path(request) => &request.class,
        Request::Region(query) => &query.class,
    }
}

/// The post that a flat post is by its kind, where the kind, the class and the goal are ones that there are.
pub fn post_of(flat: &FlatPost, classes: &ClassTable) -> Option<Post>
    ensures { result ≡ reading.post_in classes.now flat.now }
{
    if let Some(edit) = edit_of(flat) {
        return Some(Post::Edit(edit));
    }
    let class = name_of(classes, flat.class_number)?;
    Some(Post::Ask(request_of(flat, class)?))
}

/// The name of the class of a number.
fn name_of(classes: &ClassTable, number: u8) -> Option<ClassName>
    ensures { result ≡ name_at classes.now number }
{
    if number < classes.count() {
        Some(*classes.name(Class::new(number)))
    } else {
        None
    }
}

/// The request of this class that a flat post is by its kind.
fn request_of(flat: &FlatPost, class: ClassName) -> Option<Request>
    ensures { result ≡ reading.request_in flat.now class }
{
    let x = Fixed::from_raw(flat.x);
    let z = Fixed::from_raw(flat.z);
    match flat.kind {
        PATH => {
            let goal = goal_of(flat)?;
            Some(Request::Path(PathRequest { class, x, z, goal }))
        }
        REGION => Some(Request::Region(RegionQuery { class, x, z })),
        _ => None,
    }
}
