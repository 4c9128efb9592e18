//! The canonical lines of maps. Each call appends a text; where there is no memory, what stands is a beginning of it.
ghost use Rattle.std.specs.Prelude.{◌≡◌, ◌++◌, ◌≤◌, map, All, IsTrue, OnOk};
ghost use Rattle.serde_json.specs.Written.{compact_text};
ghost use Rattle.class_config.specs.Classes.{is_table};
ghost use Rattle.nav_types.specs.declared.limits.TheConstants.{MAX_CALLERS};
ghost use Rattle.script_text.specs.declared.versions.TheConstants.{NEWEST_VERSION};
ghost use Rattle.script_text.specs.Canon as canon;

use crate::canon::form_lines::{LineValue, push_form};
use crate::canon::pieces::{Piece, push_comma, push_name, push_pieces};
use crate::table::Form;
use crate::versions::NEWEST_VERSION;
use class_config::{ClassName, ClassTable};
use fixed_point::Fixed;
use nav_types::{Bytes, Class, NoMemory, Rect};
use posts::MapSpec;

/// The most rectangles on a base line.
const RECTANGLES_TO_A_LINE: usize = 65_536;

/// Appends the map line, without its newline.
#[tactic(auto, unfolding(crate::specs::Canon::map_json))]
pub(crate) fn push_map(text: &mut Bytes, map: &MapSpec) -> Result<(), NoMemory>
    ensures text { OnOk result (text.new ≡ text.old ++ compact_text (canon.map_json map.now)) }
    ensures values { OnOk result ((1 ≤ map.now.version) × (map.now.version ≤ NEWEST_VERSION) × (1 ≤ map.now.callers)
        × (map.now.callers ≤ MAX_CALLERS) × IsTrue (is_table map.now.classes)) }
{
    let values = [
        LineValue::Whole(u64::from(map.version())),
        LineValue::Sides(map.size()),
        LineValue::Whole(u64::from(map.callers())),
        LineValue::Classes(map.classes()),
    ];
    push_form(text, NEWEST_VERSION, Form::Map, &values)
}

/// Appends the array of the classes.
pub(crate) fn push_classes(text: &mut Bytes, classes: &ClassTable) -> Result<(), NoMemory>
    ensures text { OnOk result (text.new ≡ text.old
        ++ compact_text (canon.list_json (map canon.class_json classes.now))) }
    ensures values { OnOk result (IsTrue (is_table classes.now)) }
{
    text.push(b'[')?;
    let mut later = false;
    for number in 0..classes.count() {
        let class = Class::new(number);
        push_comma(text, later)?;
        push_class(text, classes.name(class), classes.clearance(class))?;
        later = true;
    }
    text.push(b']')?;
    Ok(())
}

/// Appends the object of a class.
fn push_class(text: &mut Bytes, name: &ClassName, clearance: Fixed) -> Result<(), NoMemory>
    ensures { OnOk result (text.new ≡ text.old
        ++ compact_text (canon.class_json (record { name = name.now; clearance = clearance }))) }
{
    text.extend(b"{\"name\":")?;
    push_name(text, name)?;
    let pieces = [
        Piece::Bytes(b",\"clearance\":"),
        Piece::Decimal(clearance),
        Piece::Bytes(b"}"),
    ];
    push_pieces(text, &pieces)?;
    Ok(())
}

/// Appends the base lines of these rectangles, so many to a line.
#[tactic(auto, unfolding(crate::specs::Canon::canon_base))]
pub(crate) fn push_base_lines(text: &mut Bytes, rects: &[(Rect, u16)]) -> Result<(), NoMemory>
    ensures text { OnOk result (text.new ≡ text.old ++ canon.canon_base rects.now) }
    ensures values { OnOk result (All (λ entry. entry.1 ≤ 65535) rects.now) }
{
    let mut rest = rects;
    while !rest.is_empty() {
        let (piece, others) = rest.split_at(rest.len().min(RECTANGLES_TO_A_LINE));
        push_base(text, piece)?;
        text.push(b'\n')?;
        rest = others;
    }
    Ok(())
}

/// Appends a base line, without its newline.
#[tactic(auto, unfolding(crate::specs::Canon::base_json))]
fn push_base(text: &mut Bytes, rects: &[(Rect, u16)]) -> Result<(), NoMemory>
    ensures text { OnOk result (text.new ≡ text.old ++ compact_text (canon.base_json rects.now)) }
    ensures values { OnOk result (All (λ entry. entry.1 ≤ 65535) rects.now) }
{
    push_form(
        text,
        NEWEST_VERSION,
        Form::Base,
        &[LineValue::Rectangles(rects)],
    )
}

/// Appends the array of the rectangles.
pub(crate) fn push_entries(text: &mut Bytes, rects: &[(Rect, u16)]) -> Result<(), NoMemory>
    ensures text { OnOk result (text.new ≡ text.old
        ++ compact_text (canon.list_json (map canon.entry_json rects.now))) }
    ensures values { OnOk result (All (λ entry. entry.1 ≤ 65535) rects.now) }
{
    text.push(b'[')?;
    let mut later = false;
    for entry in rects {
        push_comma(text, later)?;
        push_entry(text, entry.0, entry.1)?;
        later = true;
    }
    text.push(b']')?;
    Ok(())
}

/// Appends the array of a rectangle and its mask.
fn push_entry(text: &mut Bytes, rect: Rect, mask: u16) -> Result<(), NoMemory>
    ensures { OnOk result (text.new ≡ text.old ++ compact_text (canon.entry_json (rect, mask))) }
{
    let pieces = [
        Piece::Bytes(b"["),
        Piece::Whole(u64::from(rect.i0)),
        Piece::Bytes(b","),
        Piece::Whole(u64::from(rect.j0)),
        Piece::Bytes(b","),
        Piece::Whole(u64::from(rect.i1)),
        Piece::Bytes(b","),
        Piece::Whole(u64::from(rect.j1)),
        Piece::Bytes(b","),
        Piece::Whole(u64::from(mask)),
        Piece::Bytes(b"]"),
    ];
    push_pieces(text, &pieces)
}
