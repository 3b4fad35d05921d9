//! What is read of bytes is the list that they are the payload of.

ghost use Rattle.std.specs.Prelude.{ℕ, ◌≡◌, ◌<◌, ◌≤◌, List, All, length, Ok};
ghost use Rattle.jass_base.specs.Gaps.{AreDocs};
ghost use Rattle.codec_simple8.specs.Simple8.{read_simple8, simple8_of};
ghost use Rattle.jass_base.specs.declared.limits.TheConstants.{MOST_DOCUMENTS};

/// The documents are read of bytes exactly where the bytes are their payload.
pub fn payloads_are_read()
    ensures found { (d count : ℕ) (docs bytes : List ℕ) → AreDocs d docs → length docs ≡ count
        → bytes ≡ simple8_of docs → read_simple8 d count bytes ≡ Ok docs }
    ensures only { (d count : ℕ) (docs bytes : List ℕ) → 1 ≤ count → d ≤ MOST_DOCUMENTS → All (λ byte. byte < 256) bytes
        → read_simple8 d count bytes ≡ Ok docs → AreDocs d docs × (length docs ≡ count) × (bytes ≡ simple8_of docs) }
{}
