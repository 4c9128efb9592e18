//! The names of passability classes.
ghost use Rattle.std.specs.Prelude.{◌≡◌, ◌≤◌, ◌↔◌, IsTrue, IsSome, IfSome, bytes_eq, length};
ghost use Rattle.std.specs.Cmp.Rules.{comparing};
ghost use Rattle.std.proofs.Common.{rules};
ghost use Rattle.class_config.specs.Forms.{is_class_name, padded};

use crate::forms;
use std::marker::Model;

/// The bytes of the longest class name.
const LONGEST: usize = 64;

/// The name of a passability class: 1 to 64 bytes, each an ASCII letter, a digit, `-` or `_`
/// (`is_class_name`). It is kept in place. Contracts see the list of its bytes.
#[derive(Clone, Copy, Debug)]
pub struct ClassName {
    bytes: [u8; LONGEST],
    len: u8,
}

impl Model for ClassName {
    ghost use Rattle.std.specs.Prelude.{◌≡◌, List, ℕ, IsTrue, length, take};
    ghost use Rattle.class_config.specs.Forms.{is_class_name, padded};

    ghost Value = { List ℕ };

    ghost view = { λ name. take name.len name.bytes };

    ghost invariant = { λ name. IsTrue (is_class_name (take name.len name.bytes))
        × (length (take name.len name.bytes) ≡ name.len)
        × (name.bytes ≡ padded (take name.len name.bytes)) };

    ghost inverse = { λ name. record { bytes = padded name; len = length name } };
}

impl PartialEq for ClassName {
    ghost eq = { λ name other. bytes_eq name other };

    ghost laws = { Prim.search (comparing, rules) };

    fn eq(&self, other: &ClassName) -> bool {
        self.as_bytes() == other.as_bytes()
    }
}

impl Eq for ClassName {
    ghost laws = { Prim.search (comparing, rules) };
}

impl ClassName {
    /// The name of these bytes. None exactly where they are not of the form of a class name
    /// (`is_class_name`).
    pub fn new(text: &[u8]) -> Option<ClassName>
        ensures some { IsSome result ↔ IsTrue (is_class_name text.now) }
        ensures bytes { IfSome result (λ name. name ≡ text.now) }
    {
        if !forms::is_class_name(text) {
            return None;
        }
        Some(ClassName {
            bytes: padded(text),
            len: text.len() as u8,
        })
    }

    /// The bytes of the name.
    pub fn as_bytes(&self) -> &[u8]
        ensures bytes { result.now ≡ self.now }
        ensures form { IsTrue (is_class_name self.now) }
    {
        &self.bytes[..usize::from(self.len)]
    }
}

/// The bytes of a name with zeros behind them.
fn padded(name: &[u8]) -> [u8; LONGEST]
    requires { length name.now ≤ 64 }
    ensures { result ≡ padded name.now }
{
    let mut bytes = [0; LONGEST];
    bytes[..name.len()].copy_from_slice(name);
    bytes
}
