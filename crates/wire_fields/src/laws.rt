//! What reading gives is what the definitions of the wire format say.

ghost use Rattle.std.specs.Prelude.{ℕ, ◌≡◌, List, ◌++◌, Ok};
ghost use Rattle.jass_base.specs.Wire.{WireField, IsVarint, IsField};
ghost use Rattle.wire_fields.specs.Reading.{varint_at, field_at};

/// A number is read from the front of bytes exactly where its varint stands there.
pub fn varints_are_read()
    ensures found { (bytes rest : List ℕ) (n : ℕ) → varint_at bytes ≡ Ok (n, rest)
        → (s : List ℕ) × (bytes ≡ s ++ rest) × IsVarint s n }
    ensures only { (s rest : List ℕ) (n : ℕ) → IsVarint s n → varint_at (s ++ rest) ≡ Ok (n, rest) }
{}

/// A field is read from the front of bytes exactly where it stands there.
pub fn fields_are_read()
    ensures found { (bytes rest : List ℕ) (f : WireField) → field_at bytes ≡ Ok (f, rest)
        → (s : List ℕ) × (bytes ≡ s ++ rest) × IsField s f }
    ensures only { (s rest : List ℕ) (f : WireField) → IsField s f → field_at (s ++ rest) ≡ Ok (f, rest) }
{}
