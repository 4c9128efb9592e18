//! The goals of path lines, all in one place: their keys, how they are read and written, and why a value is none.
ghost use Rattle.std.specs.Prelude.{◌≡◌, ◌∷◌, [], ◌++◌, OnOk};
ghost use Rattle.serde_json.specs.View.{view};
ghost use Rattle.serde_json.specs.Written.{compact_text};
ghost use Rattle.goal_shapes.specs.declared.goals.GoalSpec.TheVariants as goal_spec;
ghost use Rattle.script_text.specs.Canon.{goal_json, shape_json};
ghost use Rattle.script_text.specs.Goals as goals;
ghost use Rattle.script_text.specs.Table.{key_text, member_text};
ghost use Rattle.script_text.specs.ReadsBack.{AreFixed, IsGoalValue};
ghost use Rattle.script_text.specs.Values.{under};

use crate::canon::pieces::{Piece, decimals_of, push_decimals, push_pieces};
use crate::causes::wrong_values::{FormField, wrong};
use crate::causes::{Cause, Key, Wanted};
use crate::forms::values::{
    decimal_at, has_items, number_at, point_under, rectangle_under, round_under,
};
use crate::versions::FIRST_WITH_MOVES;
use class_config::has_keys;
use fixed_point::Fixed;
use goal_shapes::{Goal, GoalSpec};
use nav_types::{Bytes, NoMemory};
use serde_json::Value;

/// The key of a goal, which is its only one.
#[derive(Clone, Copy, Debug, PartialEq, Eq)]
pub enum GoalKey {
    Point,
    Circle,
    NotCircle,
    Square,
    NotSquare,
    Obstruction,
}

impl GoalKey {
    /// The key as it stands in a line.
    pub fn as_str(self) -> &'static str
        ensures { result.now ≡ goals.goal_key_text self }
    {
        match self {
            GoalKey::Point => "point",
            GoalKey::Circle => "circle",
            GoalKey::NotCircle => "not-circle",
            GoalKey::Square => "square",
            GoalKey::NotSquare => "not-square",
            GoalKey::Obstruction => "obstruction",
        }
    }

    /// The key as it stands in an object behind another: a comma, the key in quotes and a colon.
    pub(crate) fn as_member(self) -> &'static str
        ensures { result.now ≡ member_text (goals.goal_key_text self) }
    {
        match self {
            GoalKey::Point => ",\"point\":",
            GoalKey::Circle => ",\"circle\":",
            GoalKey::NotCircle => ",\"not-circle\":",
            GoalKey::Square => ",\"square\":",
            GoalKey::NotSquare => ",\"not-square\":",
            GoalKey::Obstruction => ",\"obstruction\":",
        }
    }

    /// What must stand under it.
    pub(crate) fn wanted(self) -> Wanted
        ensures { result ≡ goals.goal_wanted self }
    {
        match self {
            GoalKey::Point => Wanted::TwoDecimals,
            GoalKey::Circle | GoalKey::NotCircle => Wanted::ThreeDecimals,
            GoalKey::Square | GoalKey::NotSquare => Wanted::SixDecimals,
            GoalKey::Obstruction => Wanted::NumberAndDecimal,
        }
    }

    /// The key as the first of an object: the key in quotes and a colon.
    fn as_first_member(self) -> &'static [u8]
        ensures { result.now ≡ 34 ∷ (goals.goal_key_text self ++ 34 ∷ 58 ∷ []) }
    {
        let (_comma, member) = self.as_member().as_bytes().split_at(1);
        member
    }
}

/// The keys of goals, in words.
pub(crate) fn goal_keys() -> &'static str
    ensures { result.now ≡ goals.goal_keys_text }
{
    "point, circle, not-circle, square, not-square or, from version 3 on, obstruction"
}

/// The goal of a path line: an object with exactly one key.
#[tactic(auto, unfolding(crate::specs::Goals::goal_of))]
pub(crate) fn goal_of(version: u8, value: &Value) -> Option<GoalSpec>
    ensures { result ≡ goals.goal_of version (view value.now) }
{
    match plain_goal(value) {
        Some(goal) => Some(GoalSpec::Plain(goal)),
        None => obstruction_goal(version, value),
    }
}

/// The goal under a key.
pub(crate) fn goal_under(version: u8, value: &Value, key: Key) -> Option<GoalSpec>
    ensures { result ≡ under (goals.goal_of version) (key_text key) (view value.now) }
{
    match value.get(key.as_str()) {
        Some(found) => goal_of(version, found),
        None => None,
    }
}

/// A goal that is a shape, which its key names.
#[tactic(auto, unfolding(crate::specs::Goals::plain_goal))]
fn plain_goal(value: &Value) -> Option<Goal>
    ensures { result ≡ goals.plain_goal (view value.now) }
{
    if has_keys(value, &["point"]) {
        point_under(value, Key::OfGoal(GoalKey::Point)).map(|(x, z)| Goal::Point { x, z })
    } else if has_keys(value, &["circle"]) {
        round_under(value, Key::OfGoal(GoalKey::Circle)).map(|(x, z, r)| Goal::Circle { x, z, r })
    } else if has_keys(value, &["not-circle"]) {
        round_under(value, Key::OfGoal(GoalKey::NotCircle)).map(|(x, z, r)| Goal::NotCircle {
            x,
            z,
            r,
        })
    } else if has_keys(value, &["square"]) {
        rectangle_under(value, Key::OfGoal(GoalKey::Square)).map(|rectangle| Goal::Square(
            rectangle,
        ))
    } else if has_keys(value, &["not-square"]) {
        rectangle_under(value, Key::OfGoal(GoalKey::NotSquare)).map(|rectangle| Goal::NotSquare(
            rectangle,
        ))
    } else {
        None
    }
}

/// A goal that is an obstruction, under version 3 only.
#[tactic(auto, unfolding(crate::specs::Goals::obstruction_goal))]
fn obstruction_goal(version: u8, value: &Value) -> Option<GoalSpec>
    ensures { result ≡ goals.obstruction_goal version (view value.now) }
{
    if version >= FIRST_WITH_MOVES && has_keys(value, &["obstruction"]) {
        value.get("obstruction").and_then(grown_of)
    } else {
        None
    }
}

/// An array of an obstruction number and a decimal, by which the obstruction grows.
#[tactic(auto, unfolding(crate::specs::Goals::grown_of))]
fn grown_of(value: &Value) -> Option<GoalSpec>
    ensures { result ≡ goals.grown_of (view value.now) }
{
    if !has_items(2, value) {
        return None;
    }
    match (number_at(0, value), decimal_at(1, value)) {
        (Some(id), Some(grow)) => Some(GoalSpec::Obstruction { id, grow }),
        _ => None,
    }
}

/// The obstruction number and the decimal of the array under a key.
pub(crate) fn grown_under(value: &Value, key: Key) -> Option<GoalSpec>
    ensures { result ≡ under goals.grown_of (key_text key) (view value.now) }
{
    value.get(key.as_str()).and_then(grown_of)
}

/// The cause of a goal that is none in a script of this version.
pub(crate) fn wrong_goal(version: u8, field: FormField, goal: &Value) -> Cause
    ensures { result ≡ goals.wrong_goal version field (view goal.now) }
{
    if has_keys(goal, &["point"]) {
        wrong(Key::OfGoal(GoalKey::Point), Wanted::TwoDecimals)
    } else if has_keys(goal, &["circle"]) {
        wrong(Key::OfGoal(GoalKey::Circle), Wanted::ThreeDecimals)
    } else if has_keys(goal, &["not-circle"]) {
        wrong(Key::OfGoal(GoalKey::NotCircle), Wanted::ThreeDecimals)
    } else if has_keys(goal, &["square"]) {
        wrong(Key::OfGoal(GoalKey::Square), Wanted::SixDecimals)
    } else if has_keys(goal, &["not-square"]) {
        wrong(Key::OfGoal(GoalKey::NotSquare), Wanted::SixDecimals)
    } else if !has_keys(goal, &["obstruction"]) {
        wrong(field.key, field.wanted)
    } else if version < FIRST_WITH_MOVES {
        Cause::LaterVersion {
            version: FIRST_WITH_MOVES,
        }
    } else {
        wrong(Key::OfGoal(GoalKey::Obstruction), Wanted::NumberAndDecimal)
    }
}

/// Appends a goal.
pub(crate) fn push_goal(text: &mut Bytes, goal: GoalSpec) -> Result<(), NoMemory>
    ensures text { OnOk result (text.new ≡ text.old ++ compact_text (goal_json goal)) }
    ensures values { OnOk result (IsGoalValue goal) }
{
    match goal {
        GoalSpec::Plain(goal) => push_plain_goal(text, goal),
        GoalSpec::Obstruction { id, grow } => push_obstruction_goal(text, id, grow),
    }
}

/// Appends a goal that is an obstruction, which grows by a distance.
fn push_obstruction_goal(text: &mut Bytes, id: u32, grow: Fixed) -> Result<(), NoMemory>
    ensures text { OnOk result (text.new ≡ text.old ++ compact_text (goal_json (goal_spec.Obstruction id grow))) }
    ensures values { OnOk result (IsGoalValue (goal_spec.Obstruction id grow)) }
{
    let pieces = [
        Piece::Bytes(b"{"),
        Piece::Bytes(GoalKey::Obstruction.as_first_member()),
        Piece::Bytes(b"["),
        Piece::Whole(u64::from(id)),
        Piece::Bytes(b","),
        Piece::Decimal(grow),
        Piece::Bytes(b"]}"),
    ];
    push_pieces(text, &pieces)?;
    Ok(())
}

/// Appends a goal that is a shape.
#[tactic(auto, unfolding(crate::specs::Canon::goal_json))]
fn push_plain_goal(text: &mut Bytes, goal: Goal) -> Result<(), NoMemory>
    ensures text { OnOk result (text.new ≡ text.old ++ compact_text (goal_json (goal_spec.Plain goal))) }
    ensures values { OnOk result (IsGoalValue (goal_spec.Plain goal)) }
{
    match goal {
        Goal::Point { x, z } => push_shape(text, GoalKey::Point, &[x, z]),
        Goal::Circle { x, z, r } => push_shape(text, GoalKey::Circle, &[x, z, r]),
        Goal::NotCircle { x, z, r } => push_shape(text, GoalKey::NotCircle, &[x, z, r]),
        Goal::Square(rectangle) => push_shape(text, GoalKey::Square, &decimals_of(rectangle)),
        Goal::NotSquare(rectangle) => push_shape(text, GoalKey::NotSquare, &decimals_of(rectangle)),
    }
}

/// Appends an object of this key and of fixed-point numbers.
fn push_shape(text: &mut Bytes, key: GoalKey, numbers: &[Fixed]) -> Result<(), NoMemory>
    ensures text { OnOk result (text.new ≡ text.old ++ compact_text (shape_json (goals.goal_key_text key) numbers.now)) }
    ensures values { OnOk result (AreFixed numbers.now) }
{
    let pieces = [Piece::Bytes(b"{"), Piece::Bytes(key.as_first_member())];
    push_pieces(text, &pieces)?;
    push_decimals(text, numbers)?;
    text.push(b'}')?;
    Ok(())
}
