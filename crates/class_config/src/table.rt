//! The table of a map's passability classes.
ghost use Rattle.std.specs.Prelude.{◌≡◌, ◌≢◌, ◌↔◌, ◌<◌, ◌≤◌, ◌&&◌, IsTrue, IsNone, IfSome, IfOk, IsErrOf, All, is_some, bytes_eq, false, filter_map, length, map, nat_le, option_map, position, slice_get, take};
ghost use Rattle.std.specs.List.{list_all};
ghost use Rattle.serde_json.specs.View.{view, items_view};
ghost use Rattle.serde_json.specs.Find.{as_array};
ghost use Rattle.class_config.specs.Classes.{class_of, classes_of, are_distinct, has_name, is_class, is_clearance, is_table, name_at, clearance_at};

use crate::forms;
use crate::names::ClassName;
use fixed_point::Fixed;
use nav_types::limits::MAX_CLASSES;
use nav_types::{Class, NoMemory, Sequence};
use serde_json::Value;
use std::alloc::Global;
use std::marker::Model;

/// The greatest number of classes that a map has.
const MOST: usize = MAX_CLASSES as usize;

/// A passability class of a map.
#[derive(Clone, Copy, Debug, PartialEq, Eq)]
pub struct PassabilityClass {
    /// The name of the class.
    pub name: ClassName,
    /// How far its units keep from obstructions, in navcells.
    pub clearance: Fixed,
}

/// The passability classes of a map, in the order of their numbers. Contracts see the list of them,
/// each with its name's bytes and the raw number of its clearance, in 1/65536 of a navcell.
///
/// There are 1 to 16, each clearance is from 0 to 64, and names are distinct (`is_table`).
#[derive(Debug, Drop)]
pub struct ClassTable {
    classes: Sequence<PassabilityClass>,
}

impl Model for ClassTable {
    ghost use Rattle.std.specs.Prelude.{List, IsTrue};
    ghost use Rattle.class_config.specs.declared.table.PassabilityClass.{PassabilityClass};

    ghost Value = { List PassabilityClass };

    ghost use Rattle.class_config.specs.Classes.{is_table};

    ghost view = { λ table. table.classes };

    ghost invariant = { λ table. IsTrue (is_table table.classes) };
}

/// Why classes, or a value, were not taken as the classes of a map.
#[derive(Clone, Copy, Debug, PartialEq, Eq)]
pub enum ClassRefusal {
    /// They are not the classes of a map, or the value is not of their form.
    NotClasses,
    /// There was no memory for the table.
    NoMemory,
}

impl ClassTable {
    /// The table of these classes, in their order.
    ///
    /// `NotClasses` exactly where there are not 1 to 16, a clearance is not from 0 to 64 navcells, or two have the
    /// same name (`is_table`).
    pub fn new(alloc: Global, classes: &[PassabilityClass]) -> Result<ClassTable, ClassRefusal>
        ensures classes { IfOk result (λ table. table ≡ classes.now) }
        ensures not_classes { IsErrOf result ClassRefusal.NotClasses ↔ (is_table classes.now ≡ false) }
    {
        if !is_table(classes) {
            return Err(ClassRefusal::NotClasses);
        }
        let mut kept = Sequence::new(alloc);
        match kept.extend(classes) {
            Ok(()) => Ok(ClassTable { classes: kept }),
            Err(NoMemory) => Err(ClassRefusal::NoMemory),
        }
    }

    /// Reads the classes of a map line: an array of 1 to 16 objects, each with exactly the keys `name`
    /// (a class name) and `clearance` (a string that is a fixed-point text, from 0 to 64 after its cut
    /// to a raw number), with distinct names.
    ///
    /// `NotClasses` exactly where the value is not of that form (`classes_of`).
    pub fn read(alloc: Global, value: &Value) -> Result<ClassTable, ClassRefusal>
        ensures classes { IfOk result (λ table. classes_of (view value.now) ≡ Some table) }
        ensures not_classes { IsErrOf result ClassRefusal.NotClasses ↔ (classes_of (view value.now) ≡ None) }
    {
        let Some(items) = items_of(value) else {
            return Err(ClassRefusal::NotClasses);
        };
        let Some(classes) = gathered(items) else {
            return Err(ClassRefusal::NotClasses);
        };
        ClassTable::new(alloc, &classes[..items.len()])
    }

    /// The class with this name. None exactly where no class has it.
    pub fn find(&self, name: &ClassName) -> Option<Class>
        ensures place { result ≡ position (λ class. bytes_eq class.name name.now) self.now }
        ensures below { IfSome result (λ class. class < length self.now) }
        ensures none { IsNone result ↔ All (λ class. class.name ≢ name.now) self.now }
    {
        match place_of(self.classes.as_slice(), name) {
            Some(at) => Some(Class::new(at as u8)),
            None => None,
        }
    }

    /// The number of classes, from 1 to 16.
    pub fn count(&self) -> u8
        ensures count { result ≡ length self.now }
        ensures few { (1 ≤ result) × (result ≤ 16) }
        ensures kept { IsTrue (is_table self.now) }
    {
        self.classes.len() as u8
    }

    /// The name of a class of the table.
    pub fn name(&self, class: Class) -> &ClassName
        requires { class < length self.now }
        ensures { Some result.now ≡ name_at self.now class }
    {
        &self.at(class).name
    }

    /// The clearance of a class of the table, from 0 to 64 navcells.
    pub fn clearance(&self, class: Class) -> Fixed
        requires { class < length self.now }
        ensures clearance { Some result ≡ clearance_at self.now class }
        ensures within { IsTrue (is_clearance result) }
    {
        self.at(class).clearance
    }

    /// The class of a number.
    fn at(&self, class: Class) -> &PassabilityClass
        requires { class < length self.now }
        ensures class { slice_get self.now class ≡ Some result.now }
        ensures kept { IsTrue (is_class result.now) }
    {
        &self.classes.as_slice()[usize::from(class.number())]
    }

    /// The same table once more.
    pub fn copy(&self, alloc: Global) -> Result<ClassTable, NoMemory>
        ensures { IfOk result (λ made. made ≡ self.now) }
    {
        let classes = self.classes.copy(alloc)?;
        Ok(ClassTable { classes })
    }
}

/// The first place of a class with this name.
fn place_of(classes: &[PassabilityClass], name: &ClassName) -> Option<usize>
    ensures place { result ≡ position (λ class. bytes_eq class.name name.now) classes.now }
    ensures below { IfSome result (λ at. at < length classes.now) }
{
    classes.iter().position(|class| class.name == *name)
}

/// Whether the classes can be those of a map.
fn is_table(classes: &[PassabilityClass]) -> bool
    ensures { result ≡ is_table classes.now }
{
    1 <= classes.len() && classes.len() <= MOST && are_classes(classes) && are_distinct(classes)
}

/// Whether a map may have each of the classes.
fn are_classes(classes: &[PassabilityClass]) -> bool
    ensures { result ≡ list_all is_class classes.now }
{
    classes.iter().all(is_class)
}

/// Whether a map may have the class. Its name is of the form of one, so the clearance decides.
fn is_class(class: &PassabilityClass) -> bool
    ensures { result ≡ is_class class.now }
{
    let _name = class.name.as_bytes(); // the form of a name
    forms::is_clearance(class.clearance)
}

/// Whether no two of the classes have the same name.
fn are_distinct(classes: &[PassabilityClass]) -> bool
    ensures { result ≡ are_distinct classes.now }
{
    match classes.split_first() {
        Some((first, rest)) => !has_name(rest, &first.name) && are_distinct(rest),
        None => true,
    }
}

/// Whether one of the classes has this name.
fn has_name(classes: &[PassabilityClass], name: &ClassName) -> bool
    ensures { result ≡ has_name name.now classes.now }
{
    classes.iter().any(|class| class.name == *name)
}

/// The items of an array.
fn items_of(value: &Value) -> Option<&[Value]>
    ensures { option_map (λ items. items_view items.now) result ≡ as_array (view value.now) }
{
    match value.as_array() {
        Some(items) => Some(items.as_slice()),
        None => None,
    }
}

/// The classes that the items are, at the front of an array. None exactly where there are not 1 to 16 items, or
/// one of them is no class.
fn gathered(items: &[Value]) -> Option<[PassabilityClass; MOST]>
    ensures some { is_some result ≡ (nat_le 1 (length items.now) && nat_le (length items.now) 16
        && list_all (λ item. is_some (class_of (view item))) items.now) }
    ensures front { IfSome result (λ classes.
        take (length items.now) classes ≡ filter_map (λ item. class_of (view item)) items.now) }
{
    if items.len() > MOST {
        return None;
    }
    let mut classes = [forms::class_of(items.first()?)?; MOST];
    for (at, item) in items.iter().enumerate() {
        classes[at] = forms::class_of(item)?;
    }
    Some(classes)
}
