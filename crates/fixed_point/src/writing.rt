//! Writing a number as its shortest exact decimal.
ghost use Rattle.std.specs.Prelude.{◌≡◌, ℕ, ◌+◌, ◌<◌, ◌≤◌, List, [], ◌∷◌, ◌++◌, length, take, decimal, if◌then◌else◌};
ghost use Rattle.fixed_point.specs.Text.{fixed_text, fraction_digits, fraction_text};

use crate::Fixed;
use std::marker::Model;

// The bytes of the longest canonical text: a sign, five digits, a point and sixteen digits.
const LONGEST: usize = 23;

/// The canonical text of a number, as [`Fixed::text`] gives it, kept in place. Contracts see it as its
/// list of ASCII bytes, of which there are at most 23.
#[derive(Debug, Drop)]
pub struct FixedText {
    bytes: [u8; LONGEST],
    len: usize,
}

impl Model for FixedText {
    ghost Value = { List ℕ };

    ghost view = { λ text. take text.len text.bytes };

    ghost invariant = { λ text. text.len ≤ 23 };
}

impl FixedText {
    // An empty text, or one with the sign alone.
    fn of_sign(negative: bool) -> FixedText
        ensures { result ≡ (if negative then 45 ∷ [] else []) }
    {
        let mut bytes = [0; LONGEST];
        bytes[0] = b'-';
        FixedText {
            bytes,
            len: usize::from(negative),
        }
    }

    /// The text's bytes, at most 23.
    pub fn as_bytes(&self) -> &[u8]
        ensures bytes { result.now ≡ self.now }
        ensures short { length self.now ≤ 23 }
    {
        &self.bytes[..self.len]
    }

    // Appends a byte.
    fn push(&mut self, byte: u8)
        requires { length self.old < 23 }
        ensures { self.new ≡ self.old ++ byte ∷ [] }
    {
        self.bytes[self.len] = byte;
        self.len += 1;
    }

    // Appends a whole number's decimal digits.
    fn push_whole(&mut self, whole: u32)
        requires { length self.old + length (decimal whole) ≤ 23 }
        ensures { self.new ≡ self.old ++ decimal whole }
    {
        if whole >= 10 {
            self.push_whole(whole / 10);
        }
        self.push(b'0' + (whole % 10) as u8);
    }

    // Appends the decimals of `raw`/65536, at most `most` of them.
    fn push_decimals(&mut self, most: usize, raw: u32)
        requires below_one { raw < 65536 }
        requires room { length self.old + most ≤ 23 }
        ensures { self.new ≡ self.old ++ fraction_digits most raw }
    {
        if most == 0 || raw == 0 {
            return;
        }
        self.push(b'0' + (raw * 10 / 65536) as u8);
        self.push_decimals(most - 1, raw * 10 % 65536);
    }

    // Appends a point and the decimals of `raw`/65536, or nothing for 0.
    fn push_fraction(&mut self, raw: u32)
        requires below_one { raw < 65536 }
        requires room { length self.old ≤ 6 }
        ensures { self.new ≡ self.old ++ fraction_text raw }
    {
        if raw > 0 {
            self.push(b'.');
            self.push_decimals(16, raw);
        }
    }
}

impl Fixed {
    /// The canonical text (`fixed_text`): `-` for a negative number, the whole part, and where there is
    /// a fraction a point and its exact decimals with no zero at the end. `Fixed::parse` reads it back
    /// (`text_reads_back`).
    #[tactic(auto, unfolding(crate::specs::Text::fixed_text))]
    pub fn text(self) -> FixedText
        ensures canonical { result ≡ fixed_text self }
        ensures short { length result ≤ 23 }
    {
        let magnitude = self.raw().unsigned_abs();
        let mut text = FixedText::of_sign(self.raw() < 0);
        text.push_whole(magnitude / 65536);
        text.push_fraction(magnitude % 65536);
        text
    }
}
