//! Laws of written answers.
ghost use Rattle.std.specs.Prelude.{◌≡◌, ◌++◌, ◌∷◌, ℕ, All, List};
ghost use Rattle.nav_types.specs.declared.cells.Cell.{Cell};
ghost use Rattle.fixed_point.specs.Raw.{centre_of};
ghost use Rattle.fixed_point.specs.Text.{fixed_text};
ghost use Rattle.posts.specs.declared.notes.Note.{Note};
ghost use Rattle.posts.specs.declared.notes.Note.TheVariants.{Nothing};
ghost use Rattle.posts.specs.declared.replies.TurnReplies.{TurnReplies};
ghost use Rattle.answer_text.specs.Answers.{turn_text, waypoint_text};
ghost use Rattle.answer_text.specs.Noted.{noted_text};

/// A law: a waypoint is written as the canonical texts of its cell's centre along both axes, with a
/// comma (44) between them. The columns and rows of a map have their centres in range (`Fixed::centre`).
pub fn waypoint_is_canonical()
    ensures { (cell : Cell) → waypoint_text cell ≡ fixed_text (centre_of cell.i) ++ 44 ∷ fixed_text (centre_of cell.j) }
{}

/// A law: where the notes tell nothing, the text of a turn with them is that of its replies alone.
pub fn notes_of_nothing()
    ensures { (turn : ℕ) (told : TurnReplies) (notes : List Note) → All (λ note. note ≡ Nothing) notes
        → noted_text turn told notes ≡ turn_text turn told }
{}
