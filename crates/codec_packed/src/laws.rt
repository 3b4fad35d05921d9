//! What reading gives is what the payloads say. Each function does nothing of its own: its contract
//! is the law, and a caller learns it by the call.

ghost use Rattle.std.specs.Prelude.{ℕ, ◌≡◌, ◌≤◌, ◌<◌, List, length, All, Ok};
ghost use Rattle.jass_base.specs.Gaps.{AreDocs};
ghost use Rattle.codec_packed.specs.Packing.{packed_of};
ghost use Rattle.codec_packed.specs.Reading.{read_packed};
ghost use Rattle.codec_packed.specs.Private.Steps.{BlockLaws, TailLaws};
ghost use Rattle.jass_base.specs.declared.limits.TheConstants.{MOST_DOCUMENTS};

use jass_base::laws::spelled_gaps_are_read;
use lane_kernels::laws::{
    block_bytes_are_bytes, block_values_by_bits, least_width_is_least, packed_of_values,
    values_of_packed,
};

/// The bytes that are read are the payloads.
pub fn payloads_are_read()
    ensures found { (d count : ℕ) (docs bytes : List ℕ) → AreDocs d docs → length docs ≡ count
        → bytes ≡ packed_of docs → read_packed d count bytes ≡ Ok docs }
    ensures only { (d count : ℕ) (docs bytes : List ℕ) → 1 ≤ count → d ≤ MOST_DOCUMENTS
        → All (λ byte. byte < 256) bytes → read_packed d count bytes ≡ Ok docs
        → AreDocs d docs × (length docs ≡ count) × (bytes ≡ packed_of docs) }
{
    blocks_keep_their_gaps();
    tails_are_read();
}

/// A block has its length, gives its gaps back, and has the least width.
pub(crate) fn blocks_keep_their_gaps()
    ensures { BlockLaws }
{
    values_of_packed();
    packed_of_values();
    block_values_by_bits();
    block_bytes_are_bytes();
    least_width_is_least();
}

/// The gaps behind the blocks are read as what they spell.
pub(crate) fn tails_are_read()
    ensures { TailLaws }
{
    spelled_gaps_are_read();
}
