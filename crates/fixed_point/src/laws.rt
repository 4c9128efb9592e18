//! Laws of numbers as text.
ghost use Rattle.std.specs.Prelude.{◌≡◌, ℤ, Some, FitsSigned, IsTrue};
ghost use Rattle.std.specs.Int.{w32};
ghost use Rattle.fixed_point.specs.Text.{fixed_value, fixed_text, is_fixed_text, unsigned_text, decimals, WritesExactly, EndsInNoZero};

/// A law: each canonical text has the value that it was written for.
pub fn text_reads_back()
    ensures { (raw : ℤ) → FitsSigned w32 raw → fixed_value (fixed_text raw) ≡ Some raw }
{}

/// A law: each canonical text is in the grammar.
pub fn text_is_in_grammar()
    ensures { (raw : ℤ) → FitsSigned w32 raw → IsTrue (is_fixed_text (fixed_text raw)) }
{}

/// A law: each canonical text writes its number exactly, with nothing cut.
pub fn text_is_exact()
    ensures { (raw : ℤ) → FitsSigned w32 raw → WritesExactly raw (fixed_text raw) }
{}

/// A law: no canonical text has a zero at the end of its decimals.
pub fn text_is_shortest()
    ensures { (raw : ℤ) → FitsSigned w32 raw → EndsInNoZero (decimals (unsigned_text (fixed_text raw))) }
{}
