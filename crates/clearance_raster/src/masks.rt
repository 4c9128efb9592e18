//! Masks of classes: bit k of a mask is set where the class k is in it.
ghost use Rattle.std.specs.Prelude.{◌≡◌, ◌<◌, ◌↔◌, ◌&&◌, not, ℕ, Some, IsTrue, length};
ghost use Rattle.lane_rows.specs.Rows.{has_class};
ghost use Rattle.class_config.specs.Classes.{clearance_at};

use class_config::ClassTable;
use fixed_point::Fixed;
use nav_types::Class;

/// Whether the class is in the mask.
pub fn includes(mask: u16, class: Class) -> bool
    ensures { result ≡ has_class class mask }
{
    (mask >> class.number()) & 1 == 1
}

/// Whether the class is in the mask and not among those that are done.
pub fn is_left(mask: u16, done: u16, class: Class) -> bool
    ensures { result ≡ (has_class class mask && not (has_class class done)) }
{
    includes(mask, class) && !includes(done, class)
}

/// The classes of the mask to which the table gives this clearance.
pub fn classes_with(classes: &ClassTable, clearance: Fixed, mask: u16) -> u16
    ensures { (k : ℕ) → IsTrue (has_class k result) ↔ (IsTrue (has_class k mask) × (clearance_at classes.now k ≡ Some clearance)) }
{
    let mut found = 0;
    for number in 0..classes.count() {
        if is_alike(classes, clearance, mask, Class::new(number)) {
            found |= 1 << number;
        }
    }
    found
}

/// Whether a class of the table is in the mask and has this clearance.
fn is_alike(classes: &ClassTable, clearance: Fixed, mask: u16, class: Class) -> bool
    requires { class < length classes.now }
    ensures { IsTrue result ↔ (IsTrue (has_class class mask) × (clearance_at classes.now class ≡ Some clearance)) }
{
    includes(mask, class) && classes.clearance(class) == clearance
}
