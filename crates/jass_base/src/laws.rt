//! Laws of the definitions that the contracts of the formats cite: varints, gaps, their documents
//! and their bytes. Each function does nothing: its contract is the law.

ghost use Rattle.std.specs.Prelude.{ℕ, ◌≡◌, ◌↔◌, ◌<◌, ◌≤◌, ◌+◌, ◌^◌, List, [], ◌∷◌, ◌++◌, length, take, sum, All, Ok};
ghost use Rattle.std.specs.List.Sorted.{IsStrictlyIncreasing};
ghost use Rattle.jass_base.specs.Gaps.{GapSpelling, gaps_from, docs_from, spelled_gaps, gap_in, read_gaps};
ghost use Rattle.jass_base.specs.Wire.{IsShortVarint, short_varint};
ghost use Rattle.jass_base.specs.declared.limits.TheConstants.{GREATEST_IMPACT, LONGEST_FILE, LONGEST_FILE_NAME, LONGEST_LINE};
ghost use Rattle.jass_base.specs.declared.limits.TheConstants.{LONGEST_NAME, LONGEST_OLD_NAME, LONGEST_QUERY_FILE, LONGEST_TERM};
ghost use Rattle.jass_base.specs.declared.limits.TheConstants.{MOST_DOCUMENTS, MOST_FRAMES, MOST_HITS, MOST_POSTINGS, MOST_QUERY_TERMS};
ghost use Rattle.jass_base.specs.declared.limits.TheConstants.{MOST_TERMS, MOST_TERM_WORDS, MOST_TIMES, MOST_TRIAL};

/// `short_varint` is the one shortest varint of a number of 64 bits.
pub fn shortest_varints_are_one()
    ensures is { (n : ℕ) → n < 2 ^ 64 → IsShortVarint (short_varint n) n }
    ensures one { (s : List ℕ) (n : ℕ) → All (λ byte. byte < 256) s → IsShortVarint s n → s ≡ short_varint n }
{}

/// Rising documents and their gaps are each other's inverse, from any least document on.
pub fn gaps_and_docs_are_inverse()
    ensures docs { (least : ℕ) (docs : List ℕ) → IsStrictlyIncreasing docs → All (λ doc. least ≤ doc) docs
        → docs_from least (gaps_from least docs) ≡ docs }
    ensures gaps { (least : ℕ) (gaps : List ℕ) → gaps_from least (docs_from least gaps) ≡ gaps }
{}

/// The documents with given gaps rise, and stay below d where their gaps leave room; and
/// the documents in parts.
pub fn docs_of_gaps()
    ensures count { (least : ℕ) (gaps : List ℕ) → length (docs_from least gaps) ≡ length gaps }
    ensures rising { (least : ℕ) (gaps : List ℕ) → IsStrictlyIncreasing (docs_from least gaps) }
    ensures from_least { (least : ℕ) (gaps : List ℕ) → All (λ doc. least ≤ doc) (docs_from least gaps) }
    ensures below { (d least : ℕ) (gaps : List ℕ) → least ≤ d
        → All (λ doc. doc < d) (docs_from least gaps) ↔ (least + sum gaps + length gaps ≤ d) }
    ensures parts { (least : ℕ) (front back : List ℕ)
        → docs_from least (front ++ back)
        ≡ docs_from least front ++ docs_from (least + sum front + length front) back }
{}

/// The gaps of given documents, one for each, and in parts.
pub fn gaps_of_docs()
    ensures count { (least : ℕ) (docs : List ℕ) → length (gaps_from least docs) ≡ length docs }
    ensures below { (d least : ℕ) (docs : List ℕ) → All (λ doc. doc < d) docs
        → All (λ gap. gap < d) (gaps_from least docs) }
    ensures parts { (least doc : ℕ) (front back : List ℕ)
        → gaps_from least (front ++ doc ∷ back) ≡ gaps_from least (front ++ doc ∷ []) ++ gaps_from (doc + 1) back }
{}

/// A gap below 2^28 is read from the front of bytes exactly where its shortest varint
/// stands there.
pub fn gap_varints_are_read()
    ensures found { (gap : ℕ) (rest : List ℕ) → gap < 2 ^ 28
        → gap_in (short_varint gap ++ rest) ≡ Ok (record { gap = gap; size = length (short_varint gap) }) }
    ensures only { (bytes : List ℕ) (read : GapSpelling) → All (λ byte. byte < 256) bytes → gap_in bytes ≡ Ok read
        → take read.size bytes ≡ short_varint read.gap }
    ensures limit { (bytes : List ℕ) (read : GapSpelling) → gap_in bytes ≡ Ok read → read.gap < 2 ^ 28 }
    ensures size { (bytes : List ℕ) (read : GapSpelling) → gap_in bytes ≡ Ok read
        → (0 < read.size) × (read.size ≤ 4) × (read.size ≤ length bytes) }
{}

/// Documents from a least one on are read exactly from the shortest varints of their gaps.
pub fn spelled_gaps_are_read()
    ensures found { (d least : ℕ) (docs : List ℕ) → IsStrictlyIncreasing docs → All (λ doc. least ≤ doc) docs
        → All (λ doc. doc < d) docs → d ≤ 2 ^ 28
        → read_gaps d least (length docs) (spelled_gaps (gaps_from least docs)) ≡ Ok docs }
    ensures bytes { (d least count : ℕ) (docs bytes : List ℕ) → All (λ byte. byte < 256) bytes
        → read_gaps d least count bytes ≡ Ok docs → bytes ≡ spelled_gaps (gaps_from least docs) }
    ensures count { (d least count : ℕ) (docs bytes : List ℕ) → read_gaps d least count bytes ≡ Ok docs
        → length docs ≡ count }
    ensures rising { (d least count : ℕ) (docs bytes : List ℕ) → read_gaps d least count bytes ≡ Ok docs
        → IsStrictlyIncreasing docs }
    ensures from_least { (d least count : ℕ) (docs bytes : List ℕ) → read_gaps d least count bytes ≡ Ok docs
        → All (λ doc. least ≤ doc) docs }
    ensures below { (d least count : ℕ) (docs bytes : List ℕ) → read_gaps d least count bytes ≡ Ok docs
        → All (λ doc. doc < d) docs }
{}

/// The limits of collections, index files, queries, pools of frames, trials and the command line.
pub fn the_limits_are()
    ensures terms { MOST_TERMS ≡ 16777216 }
    ensures documents { MOST_DOCUMENTS ≡ 67108864 }
    ensures postings { MOST_POSTINGS ≡ 536870912 }
    ensures term { LONGEST_TERM ≡ 65535 }
    ensures name { LONGEST_NAME ≡ 1048576 }
    ensures old_name { LONGEST_OLD_NAME ≡ 65535 }
    ensures impact { GREATEST_IMPACT ≡ 65535 }
    ensures file { LONGEST_FILE ≡ 4294967296 }
    ensures query_terms { MOST_QUERY_TERMS ≡ 256 }
    ensures times { MOST_TIMES ≡ 255 }
    ensures hits { MOST_HITS ≡ 100000 }
    ensures line { LONGEST_LINE ≡ 1048576 }
    ensures query_file { LONGEST_QUERY_FILE ≡ 268435456 }
    ensures frames { MOST_FRAMES ≡ 1048576 }
    ensures trial { MOST_TRIAL ≡ 1048576 }
    ensures term_words { MOST_TERM_WORDS ≡ 255 }
    ensures file_name { LONGEST_FILE_NAME ≡ 4096 }
{}
