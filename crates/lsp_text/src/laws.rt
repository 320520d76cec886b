//! Laws of positions. Each function carries one, and does nothing.

ghost use Rattle.std.specs.Prelude.{◌≡◌, ◌≤◌, ℕ, List, length};
ghost use Rattle.std.specs.Str.{IsUtf8, IsCharBoundary};
ghost use Rattle.mg_text.specs.declared.place.Place.{Place};
ghost use Rattle.lsp_text.specs.declared.encoding.Encoding.{Encoding};
ghost use Rattle.lsp_text.specs.declared.positions.Position.{Position};
ghost use Rattle.lsp_text.specs.Positions.{Stands, Means, IsPositionOf, IsBetween};
ghost use Rattle.lsp_text.specs.Places.{place_at, IsOffsetOf};
ghost use Rattle.lsp_text.specs.examples.Rows.{Rows};

/// A position means one offset.
pub fn one_meaning()
    ensures { (e : Encoding) (text : List ℕ) (position : Position) (o p : ℕ)
        → Means e text position o → Means e text position p → o ≡ p }
{}

/// An offset has one position.
pub fn one_position()
    ensures { (e : Encoding) (text : List ℕ) (o : ℕ) (p q : Position)
        → IsPositionOf e text o p → IsPositionOf e text o q → p ≡ q }
{}

/// The position of a place means that place.
pub fn there_and_back()
    ensures { (e : Encoding) (text : List ℕ) (l c o p : ℕ) (position : Position)
        → Stands e text l c o → IsPositionOf e text o position → Means e text position p → p ≡ o }
{}

/// Wherever a character begins there is a place, and at the text's end; only between a carriage return and its line feed there is none.
pub fn boundaries_are_places()
    ensures { (e : Encoding) (text : List ℕ) (o : ℕ) → IsUtf8 text → IsCharBoundary text o → ¬ IsBetween text o
        → (l : ℕ) × (c : ℕ) × Stands e text l c o }
{}

/// A place of mungo that a text has stands at its own offset.
pub fn places_have_their_offsets()
    ensures { (file : ℕ) (text : List ℕ) (o p : ℕ) → o ≤ length text → IsOffsetOf text (place_at file text o) p → p ≡ o }
{}

/// The worked rows hold.
pub fn rows_hold()
    ensures { Rows }
{}
