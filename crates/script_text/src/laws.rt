//! Laws: the forms of lines are the grammar, no value is a line of two forms, each bad line and no other has a cause,
//! and canonical scripts read back.
ghost use Rattle.std.specs.Prelude.{◌≡◌, ◌↔◌, ◌+◌, ℕ, IsFalse, IsSome, IsTrue, List, None, Some};
ghost use Rattle.nav_types.specs.declared.cells.Rect.{Rect};
ghost use Rattle.nav_types.specs.declared.cells.Size.{Size};
ghost use Rattle.serde_json.specs.Data.{Data};
ghost use Rattle.posts.specs.declared.posts.Post.{Post};
ghost use Rattle.posts.specs.Maps.{Map};
ghost use Rattle.script_text.specs.declared.forms.CallerPost.{CallerPost};
ghost use Rattle.script_text.specs.Forms as form;
ghost use Rattle.script_text.specs.Grammar.{Line, IsLine, IsMapLine, IsBaseLine, IsPostLine, IsEndLine};
ghost use Rattle.script_text.specs.Script.{Place, bad, bad_line, finish, placed, reading_of, stuck};
ghost use Rattle.script_text.specs.declared.causes.Cause.{Cause};
ghost use Rattle.script_text.specs.declared.causes.Cause.TheVariants.{ArrayLine, BlankLine, TooDeep, WrongValue};
ghost use Rattle.script_text.specs.TrueBytes.{IsTrueOfBytes};
ghost use Rattle.script_text.specs.TrueCauses.{HasNoForm, IsStrange, IsTrueOf};
ghost use Rattle.script_text.specs.declared.causes.keys.Key.{Key};
ghost use Rattle.script_text.specs.declared.causes.keys.Wanted.{Wanted};
ghost use Rattle.script_text.specs.declared.parts.Part.{Part};
ghost use Rattle.script_text.specs.Causes.{IsWrongIn, cause, end_cause, has_mark, is_array, is_blank, is_too_deep, value_cause};
ghost use Rattle.script_text.specs.ReadsBack as back;

/// A law: the form of a map line gives a map exactly where the value is a map line of the grammar that says it.
pub fn map_lines()
    ensures { (d : Data) (map : Map) → (form.map_of d ≡ Some map) ↔ IsMapLine map d }
{}

/// A law: the form of a base line gives rectangles exactly where the value is a base line that says them.
pub fn base_lines()
    ensures { (size : Size) (d : Data) (rects : List (Rect × ℕ)) → (form.base_of size d ≡ Some rects)
        ↔ IsBaseLine size rects d }
{}

/// A law: the form of a post line gives a caller and a post exactly where the value is a post line that says them.
pub fn post_lines()
    ensures { (version callers : ℕ) (d : Data) (said : CallerPost)
        → (form.post_of version callers d ≡ Some said) ↔ IsPostLine version callers said.caller said.post d }
{}

/// A law: the form of an end line gives a number exactly where the value is an end line that says it.
pub fn end_lines()
    ensures { (d : Data) (turn : ℕ) → (form.end_of d ≡ Some turn) ↔ IsEndLine turn d }
{}

/// A law: a value is a line of at most one form, and says at most one thing in it.
pub fn one_line()
    ensures { (version callers : ℕ) (size : Size) (d : Data) (a b : Line)
        → IsLine version callers size a d → IsLine version callers size b d → a ≡ b }
{}

/// A law: a line has a cause exactly where it is bad in its place.
pub fn line_causes()
    ensures { (p : Place) (line : List ℕ) → (placed p (reading_of line) ≡ bad p)
        ↔ IsSome (cause p.part (p.turns + 1) line) }
{}

/// A law: a value that a cause names as wrong is not what is wanted.
pub fn wrong_values()
    ensures { (part : Part) (turn : ℕ) (d : Data) (key : Key) (wanted : Wanted)
        → value_cause part turn d ≡ Some (WrongValue key wanted)
        → IsWrongIn key wanted d }
{}

/// A law: what a cause says of a value is true of it, in the words of the grammar.
pub fn true_causes()
    ensures { (part : Part) (turn : ℕ) (d : Data) (found : Cause) → value_cause part turn d ≡ Some found → IsTrueOf d found }
{}

/// A law: a value that has the keys of no form in any version is told so: a key of it is unknown, or one is missing, or
/// it is of no form for another reason.
pub fn strange_lines()
    ensures { (part : Part) (turn : ℕ) (d : Data) → HasNoForm d → IsStrange (value_cause part turn d) }
{}

/// A law: a line is told to be an array exactly where its value is one.
pub fn array_lines()
    ensures { (part : Part) (turn : ℕ) (d : Data) → (value_cause part turn d ≡ Some ArrayLine) ↔ IsTrue (is_array d) }
{}

/// A law: a line is told to be blank exactly where it has no byte but white space.
pub fn blank_lines()
    ensures { (part : Part) (turn : ℕ) (line : List ℕ) → (cause part turn line ≡ Some BlankLine) ↔ IsTrue (is_blank line) }
{}

/// A law: a line is told to nest too deep exactly where it does, is in UTF-8 and has no byte order mark.
pub fn deep_lines()
    ensures { (part : Part) (turn : ℕ) (line : List ℕ) → (cause part turn line ≡ Some TooDeep)
        ↔ (IsTrue (is_too_deep line) × IsFalse (has_mark line)) }
{}

/// A law: what the cause of a line without a reading says of its bytes is true of them. A byte that it names is what it is
/// told to be, and no byte before it is a mistake; a line that is not in UTF-8 is so up to the place that is named.
pub fn unread_lines()
    ensures { (part : Part) (turn : ℕ) (line : List ℕ) (found : Cause) → reading_of line ≡ None → cause part turn line ≡ Some found
        → IsTrueOfBytes line found }
{}

/// A law: the end of an input has a cause exactly where the input may not end there.
pub fn end_causes()
    ensures { (p : Place) → (finish p ≡ stuck (bad_line (p.lines + 1))) ↔ IsSome (end_cause p.part p.posts) }
{}

/// A law: a canonical script whose lines and whole are within the limits of an input reads back as the map and the
/// turns that it was written from. `write_map` and `write_journal` say of what they write that it has such values.
pub fn canonical_reads_back()
    ensures { (m : Map) (turns : List (List (List Post))) → back.IsMapValue m → back.AreTurns m turns
        → back.IsWithinLimits (back.canon_script m turns) → back.ReadsAs m turns (back.canon_script m turns) }
{}
