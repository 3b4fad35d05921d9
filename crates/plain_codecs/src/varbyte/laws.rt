//! The payloads that are read are those of lists of documents.

ghost use Rattle.std.specs.Prelude.{ℕ, ◌≡◌, ◌≤◌, ◌<◌, List, length, All, Ok};
ghost use Rattle.jass_base.specs.Gaps.{AreDocs};
ghost use Rattle.plain_codecs.specs.Varbyte.{varbyte_of, read_varbyte};
ghost use Rattle.jass_base.specs.declared.limits.TheConstants.{MOST_DOCUMENTS};

use jass_base::laws::spelled_gaps_are_read;

/// Documents are read exactly from their payload.
pub fn payloads_are_read()
    ensures found { (d count : ℕ) (docs bytes : List ℕ) → AreDocs d docs → length docs ≡ count
        → bytes ≡ varbyte_of docs → read_varbyte d count bytes ≡ Ok docs }
    ensures only { (d count : ℕ) (docs bytes : List ℕ) → 1 ≤ count → d ≤ MOST_DOCUMENTS → All (λ byte. byte < 256) bytes
        → read_varbyte d count bytes ≡ Ok docs → AreDocs d docs × (length docs ≡ count) × (bytes ≡ varbyte_of docs) }
{
    spelled_gaps_are_read();
}
