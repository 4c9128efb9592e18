//! What the lines say, over the reading of a line, by the table of forms.
ghost use Rattle.std.specs.Prelude.{◌≡◌, ◌<◌, All, IfOk, IfSome};
ghost use Rattle.nav_types.specs.Cells.{IsRectInside};
ghost use Rattle.serde_json.specs.View.{view};
ghost use Rattle.class_config.specs.Classes.{classes_of};
ghost use Rattle.script_text.specs.Values as value_form;
ghost use Rattle.script_text.specs.Forms as form;
ghost use Rattle.script_text.specs.Table.{key_text};

pub(crate) mod bases;
pub(crate) mod post_lines;
pub(crate) mod values;

use crate::causes::Key;
use crate::table::{Form, form_of, has_form};
use crate::versions::NEWEST_VERSION;
use class_config::{ClassRefusal, ClassTable};
use nav_types::limits::MAX_CALLERS;
use nav_types::{NoMemory, Size};
use posts::{BaseRects, MapSpec, Post};
use serde_json::Value;
use std::alloc::Global;

/// A post, and the number of the caller that posts it.
#[derive(Debug, Drop)]
pub struct CallerPost {
    pub caller: u8,
    pub post: Post,
}

/// The map of a map line, which has no base rectangle yet. None where the value is no map line.
#[tactic(auto, unfolding(crate::specs::Forms::map_of))]
pub(crate) fn map_of(alloc: Global, value: &Value) -> Result<Option<MapSpec>, NoMemory>
    ensures { IfOk result (λ made. made ≡ form.map_of (view value.now)) }
{
    if !has_form(NEWEST_VERSION, value, Form::Map) {
        return Ok(None);
    }
    let (Some(version), Some(size), Some(callers)) = (
        values::whole_under(1, u64::from(NEWEST_VERSION), value, Key::Version),
        values::size_under(value, Key::Size),
        values::whole_under(1, u64::from(MAX_CALLERS), value, Key::Callers),
    ) else {
        return Ok(None);
    };
    let Some(classes) = classes_under(alloc, value, Key::Classes)? else {
        return Ok(None);
    };
    let base = BaseRects::new(alloc);
    Ok(MapSpec::new(version as u8, size, callers as u8, classes, base))
}

/// The table of classes under a key.
pub(crate) fn classes_under(
    alloc: Global,
    value: &Value,
    key: Key,
) -> Result<Option<ClassTable>, NoMemory>
    ensures { IfOk result (λ made. made ≡ value_form.under classes_of (key_text key) (view value.now)) }
{
    let Some(found) = value.get(key.as_str()) else {
        return Ok(None);
    };
    match ClassTable::read(alloc, found) {
        Ok(classes) => Ok(Some(classes)),
        Err(ClassRefusal::NotClasses) => Ok(None),
        Err(ClassRefusal::NoMemory) => Err(NoMemory),
    }
}

/// The rectangles of a base line on a map of this size. None where the value is no such line.
#[tactic(auto, unfolding(crate::specs::Forms::base_of))]
pub(crate) fn base_of(
    alloc: Global,
    size: Size,
    value: &Value,
) -> Result<Option<BaseRects>, NoMemory>
    ensures rects { IfOk result (λ made. made ≡ form.base_of size (view value.now)) }
    ensures inside { IfOk result (λ made. IfSome made (All (λ entry. IsRectInside size entry.0))) }
{
    if !has_form(NEWEST_VERSION, value, Form::Base) {
        return Ok(None);
    }
    match values::items_under(value, Key::Base) {
        Some(items) => bases::entries_of(alloc, size, items),
        None => Ok(None),
    }
}

/// The post of a post line of a script of this version with so many callers. None where the value is no such line.
#[tactic(auto, unfolding(crate::specs::Forms::post_of))]
pub(crate) fn post_of(version: u8, callers: u8, value: &Value) -> Option<CallerPost>
    ensures post { result ≡ form.post_of version callers (view value.now) }
    ensures caller { IfSome result (λ said. said.caller < callers) }
{
    let Some(caller) = values::caller_under(callers, value, Key::Caller) else {
        return None;
    };
    let Some(form) = form_of(version, value) else {
        return None;
    };
    match post_lines::post_in(version, value, form) {
        Some(post) => Some(CallerPost { caller, post }),
        None => None,
    }
}

/// The number of an end line. None where the value is no such line.
#[tactic(auto, unfolding(crate::specs::Forms::end_of))]
pub(crate) fn end_of(value: &Value) -> Option<u64>
    ensures { result ≡ form.end_of (view value.now) }
{
    if has_form(NEWEST_VERSION, value, Form::End) {
        value.get(Key::End.as_str()).and_then(Value::as_u64)
    } else {
        None
    }
}
