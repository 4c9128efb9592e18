//! The parts of flat maps: classes and base rectangles.
ghost use Rattle.std.specs.Prelude.{◌≡◌, ◌≢◌, ◌↔◌, ℕ, All, IfSome, IsNone, IsTrue};
ghost use Rattle.nav_types.specs.declared.cells.Rect.{Rect};
ghost use Rattle.class_config.specs.Forms.{is_class_name};
ghost use Rattle.class_config.specs.declared.table.PassabilityClass.{PassabilityClass};

use class_config::{ClassName, PassabilityClass};
use fixed_point::Fixed;
use nav_types::Rect;
use std::mem::size_of;

/// A passability class: its name with zeros behind it, the length of the name, and its clearance as a raw number.
#[repr(C)]
#[derive(Clone, Copy, Debug)]
pub struct FlatClass {
    pub name: [u8; 64],
    pub name_length: u32,
    pub clearance: i32,
}

const _: () = prove!(size_of::<FlatClass>() == 72);

/// A rectangle of navcells, both corners among them, that is never passable for the classes of the mask: bit k is for
/// class k. `zero` is 0.
#[repr(C)]
#[derive(Clone, Copy, Debug, PartialEq, Eq)]
pub struct FlatRect {
    pub i0: u16,
    pub j0: u16,
    pub i1: u16,
    pub j1: u16,
    pub mask: u16,
    pub zero: u16,
}

const _: () = prove!(size_of::<FlatRect>() == 12);

impl FlatClass {
    ghost use Rattle.flat_posts.specs.Maps.{flat_class};

    /// The class that the numbers are (`flat_class`). None exactly where they are none: the name is not of the form of a class
    /// name, or another byte than 0 stands behind it. Whether a map may have the clearance is not looked at.
    pub fn read(&self) -> Option<PassabilityClass>
        ensures class { IfSome result (λ class. self.now ≡ flat_class class) }
        ensures none { IsNone result → (class : PassabilityClass) → IsTrue (is_class_name class.name)
            → self.now ≢ flat_class class }
    {
        let length = self.name_length as usize;
        if length > self.name.len() {
            return None;
        }
        let (name, behind) = self.name.split_at(length);
        if !are_zeros(behind) {
            return None;
        }
        let name = ClassName::new(name)?;
        Some(PassabilityClass {
            name,
            clearance: self.clearance(),
        })
    }

    /// The clearance.
    fn clearance(&self) -> Fixed
        ensures { result ≡ self.now.clearance }
    {
        Fixed::from_raw(self.clearance)
    }
}

/// Whether each of the bytes is 0.
fn are_zeros(bytes: &[u8]) -> bool
    ensures { IsTrue result ↔ All (λ byte. byte ≡ 0) bytes.now }
{
    bytes.iter().all(|byte| *byte == 0)
}

impl FlatRect {
    ghost use Rattle.flat_posts.specs.Maps.{flat_rect};

    /// The rectangle and the mask that the numbers are (`flat_rect`). None exactly where `zero` is not 0. Whether a map may have
    /// the rectangle is not looked at.
    pub fn read(&self) -> Option<(Rect, u16)>
        ensures rect { IfSome result (λ entry. self.now ≡ flat_rect entry) }
        ensures none { IsNone result → (entry : Rect × ℕ) → self.now ≢ flat_rect entry }
    {
        if self.zero != 0 {
            return None;
        }
        let rect = Rect {
            i0: self.i0,
            j0: self.j0,
            i1: self.i1,
            j1: self.j1,
        };
        Some((rect, self.mask))
    }
}
