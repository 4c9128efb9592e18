//! The canonical lines by the table of forms: the keys of a form in their order, and under each its value. Each call appends
//! a text; where there is no memory, what stands is a beginning of it.
ghost use Rattle.std.specs.Prelude.{◌≡◌, ◌++◌, ◌∷◌, [], IsTrue, OnOk, map};
ghost use Rattle.std.specs.List.{list_all};
ghost use Rattle.serde_json.specs.Data.{string};
ghost use Rattle.serde_json.specs.Written.{comma_if, compact_text};
ghost use Rattle.script_text.specs.Canon as canon;
ghost use Rattle.script_text.specs.Grammar.{shape_decimals};
ghost use Rattle.script_text.specs.ReadsBack.{AreFixed};
ghost use Rattle.script_text.specs.Table.{key_text, keys_of};
ghost use Rattle.script_text.specs.inner.LineValues.{AreLineValues, IsLineValue, value_json};
ghost use Rattle.script_text.specs.inner.Plain.{is_plain};

use crate::canon::maps::{push_classes, push_entries};
use crate::canon::pieces::{decimals_of, push_decimals, push_name};
use crate::causes::Key;
use crate::goals::push_goal;
use crate::table::Form;
use class_config::{ClassName, ClassTable};
use fixed_point::Fixed;
use goal_shapes::GoalSpec;
use nav_types::{Bytes, NoMemory, Rect, Size};
use obstruction_shapes::Shape;

/// What stands under a key of a line.
#[derive(Clone, Copy)]
pub(crate) enum LineValue<'a> {
    /// A whole number.
    Whole(u64),
    /// The sides of a map.
    Sides(Size),
    /// The classes of a map.
    Classes(&'a ClassTable),
    /// Rectangles, each with its mask.
    Rectangles(&'a [(Rect, u16)]),
    /// The name of a class.
    Name(&'a ClassName),
    /// A point.
    Point(Fixed, Fixed),
    /// The coordinates and lengths of a shape.
    Shape(Shape),
    /// A goal.
    Goal(GoalSpec),
}

/// Appends the line of a form, without its newline: under each of its keys in this version the value in its place. A value
/// beyond the keys is left out.
pub(crate) fn push_form(
    text: &mut Bytes,
    version: u8,
    form: Form,
    values: &[LineValue],
) -> Result<(), NoMemory>
    ensures text { OnOk result (text.new ≡ text.old
        ++ compact_text (canon.form_json version form (map value_json values.now))) }
    ensures values { OnOk result (AreLineValues (keys_of version form) values.now) }
{
    let keys = form.keys(version);
    text.push(b'{')?;
    let mut later = false;
    for place in 0..keys.len().min(values.len()) {
        push_key(text, keys[place], later)?;
        push_value(text, &values[place])?;
        later = true;
    }
    text.push(b'}')?;
    Ok(())
}

/// Appends a key and its colon, behind a comma where something stands before.
fn push_key(text: &mut Bytes, key: Key, later: bool) -> Result<(), NoMemory>
    requires { IsTrue (list_all is_plain (key_text key)) }
    ensures { OnOk result (text.new ≡ text.old
        ++ (comma_if later ++ (compact_text (string (key_text key)) ++ 58 ∷ []))) }
{
    let member = key.as_member().as_bytes();
    if later {
        return text.extend(member);
    }
    let (_comma, first) = member.split_at(1);
    text.extend(first)
}

/// Appends the value under a key.
fn push_value(text: &mut Bytes, value: &LineValue) -> Result<(), NoMemory>
    ensures text { OnOk result (text.new ≡ text.old ++ compact_text (value_json value.now)) }
    ensures values { OnOk result (IsLineValue value.now) }
{
    match *value {
        LineValue::Whole(number) => text.push_decimal(number),
        LineValue::Sides(size) => push_sides(text, size),
        LineValue::Classes(classes) => push_classes(text, classes),
        LineValue::Rectangles(rects) => push_entries(text, rects),
        LineValue::Name(name) => push_name(text, name),
        LineValue::Point(x, z) => push_decimals(text, &[x, z]),
        LineValue::Shape(shape) => push_shape(text, shape),
        LineValue::Goal(goal) => push_goal(text, goal),
    }
}

/// Appends the array of the sides of a map.
fn push_sides(text: &mut Bytes, size: Size) -> Result<(), NoMemory>
    ensures { OnOk result (text.new ≡ text.old ++ compact_text (canon.sides_json size)) }
{
    text.push(b'[')?;
    text.push_decimal(u64::from(size.w))?;
    text.push(b',')?;
    text.push_decimal(u64::from(size.h))?;
    text.push(b']')?;
    Ok(())
}

/// Appends the array of a shape's coordinates and lengths.
fn push_shape(text: &mut Bytes, shape: Shape) -> Result<(), NoMemory>
    ensures text { OnOk result (text.new ≡ text.old ++ compact_text (canon.decimals_json (shape_decimals shape))) }
    ensures values { OnOk result (AreFixed (shape_decimals shape)) }
{
    match shape {
        Shape::Unit { x, z, half } => push_decimals(text, &[x, z, half]),
        Shape::Square(rectangle) => push_decimals(text, &decimals_of(rectangle)),
    }
}
