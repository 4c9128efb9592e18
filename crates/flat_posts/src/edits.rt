//! Edits in flat posts.
ghost use Rattle.std.specs.Prelude.{◌≡◌};
ghost use Rattle.flat_posts.specs.Posts as form;
ghost use Rattle.flat_posts.specs.inner.Reading as reading;

use crate::post_kinds::{ADD_SQUARE, ADD_UNIT, MOVE, REMOVE};
use crate::posted::{FlatPost, bare_post};
use fixed_point::{Fixed, Rectangle};
use obstruction_shapes::{Obstruction, Shape};
use posts::Edit;

/// The flat form of an edit of a caller.
pub fn flat_edit(caller: u8, edit: &Edit) -> FlatPost
    ensures { result ≡ form.flat_edit caller edit.now }
{
    match *edit {
        Edit::Add { id, obstruction } => {
            flat_add(caller, id, obstruction.mask, obstruction.shape)
        }
        Edit::Remove { id } => FlatPost {
            id,
            ..bare_post(REMOVE, caller)
        },
        Edit::Move { id, x, z } => FlatPost {
            id,
            x: x.raw(),
            z: z.raw(),
            ..bare_post(MOVE, caller)
        },
    }
}

/// The flat form of an obstruction that a caller adds.
fn flat_add(caller: u8, id: u32, mask: u16, shape: Shape) -> FlatPost
    ensures { result ≡ form.flat_add caller id mask shape }
{
    match shape {
        Shape::Unit { x, z, half } => FlatPost {
            id,
            mask,
            x: x.raw(),
            z: z.raw(),
            radius: half.raw(),
            ..bare_post(ADD_UNIT, caller)
        },
        Shape::Square(rectangle) => FlatPost {
            id,
            mask,
            x: rectangle.x.raw(),
            z: rectangle.z.raw(),
            ux: rectangle.ux.raw(),
            uz: rectangle.uz.raw(),
            hw: rectangle.hw.raw(),
            hh: rectangle.hh.raw(),
            ..bare_post(ADD_SQUARE, caller)
        },
    }
}

/// The edit that a flat post is by its kind.
pub fn edit_of(flat: &FlatPost) -> Option<Edit>
    ensures { result ≡ reading.edit_in flat.now }
{
    let id = flat.id;
    let x = Fixed::from_raw(flat.x);
    let z = Fixed::from_raw(flat.z);
    match flat.kind {
        ADD_UNIT => {
            let half = Fixed::from_raw(flat.radius);
            Some(add(flat, Shape::Unit { x, z, half }))
        }
        ADD_SQUARE => Some(add(flat, Shape::Square(rectangle_at(flat, x, z)))),
        REMOVE => Some(Edit::Remove { id }),
        MOVE => Some(Edit::Move { id, x, z }),
        _ => None,
    }
}

/// The add of an obstruction of this shape.
fn add(flat: &FlatPost, shape: Shape) -> Edit
    ensures { result ≡ reading.add_of flat.now shape }
{
    let mask = flat.mask;
    Edit::Add {
        id: flat.id,
        obstruction: Obstruction { shape, mask },
    }
}

/// The rectangle about a point that the vector and the half sides of a flat post give.
pub fn rectangle_at(flat: &FlatPost, x: Fixed, z: Fixed) -> Rectangle
    ensures { result ≡ reading.rectangle_at flat.now x z }
{
    Rectangle {
        x,
        z,
        ux: Fixed::from_raw(flat.ux),
        uz: Fixed::from_raw(flat.uz),
        hw: Fixed::from_raw(flat.hw),
        hh: Fixed::from_raw(flat.hh),
    }
}
