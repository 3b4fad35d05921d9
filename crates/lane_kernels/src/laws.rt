//! Laws of the definitions that the contracts of this crate cite. Each function does nothing: its
//! contract is the law.

ghost use Rattle.std.specs.Prelude.{◌≡◌, ℕ, ◌+◌, ◌*◌, ◌/◌, ◌%◌, ◌^◌, ◌<◌, ◌≤◌, ◌↔◌, List, ◌++◌, All, Contains, length, slice_index};
ghost use Rattle.std.specs.Int.{bit_at};
ghost use Rattle.std.specs.List.Sorted.{IsStrictlyIncreasing};
ghost use Rattle.lane_kernels.specs.Bitmap.{bit_of, set_bits};
ghost use Rattle.lane_kernels.specs.Block.{block_bytes, block_values, lane_bit};
ghost use Rattle.lane_kernels.specs.Width.{least_width};

/// A packed block gives its values back.
pub fn values_of_packed()
    ensures { (values : List ℕ) (width : ℕ) → length values ≡ 128
        → All (λ value. value < 2 ^ width) values
        → block_values (block_bytes values width) width ≡ values }
{}

/// Each list of bytes that has a block's length is the packed block of its values.
pub fn packed_of_values()
    ensures { (bytes : List ℕ) (width : ℕ) → length bytes ≡ 16 * width
        → All (λ byte. byte < 256) bytes
        → block_bytes (block_values bytes width) width ≡ bytes }
{}

/// The values of a block, bit by bit, and below what they stay.
pub fn block_values_by_bits()
    ensures count { (bytes : List ℕ) (width : ℕ) → length (block_values bytes width) ≡ 128 }
    ensures below { (bytes : List ℕ) (width : ℕ)
        → All (λ value. value < 2 ^ width) (block_values bytes width) }
    ensures bits { (bytes : List ℕ) (width i v : ℕ) → i < 128 → v < width
        → bit_at (slice_index (block_values bytes width) i) v
        ≡ lane_bit bytes (i % 4) (i / 4 * width + v) }
{}

/// A packed block has a fixed number of bytes.
pub fn block_bytes_are_bytes()
    ensures count { (values : List ℕ) (width : ℕ)
        → length (block_bytes values width) ≡ 16 * width }
    ensures below { (values : List ℕ) (width : ℕ)
        → All (λ byte. byte < 256) (block_bytes values width) }
{}

/// The least width of numbers below 2 ^ 32 holds each of them, and no lesser one does.
pub fn least_width_is_least()
    ensures holds { (values : List ℕ) → All (λ value. value < 2 ^ 32) values
        → All (λ value. value < 2 ^ least_width values) values }
    ensures least { (values : List ℕ) (width : ℕ) → All (λ value. value < 2 ^ 32) values
        → All (λ value. value < 2 ^ width) values → least_width values ≤ width }
{}

/// The set bits of a bitmap as a rising list, and in parts.
pub fn set_bits_rise()
    ensures rising { (base : ℕ) (bytes : List ℕ) → IsStrictlyIncreasing (set_bits base bytes) }
    ensures from_base { (base : ℕ) (bytes : List ℕ) → All (λ x. base ≤ x) (set_bits base bytes) }
    ensures members { (base : ℕ) (bytes : List ℕ) (i : ℕ)
        → Contains (set_bits base bytes) (base + i) ↔ (bit_of bytes i ≡ 1) }
    ensures parts { (base : ℕ) (front back : List ℕ) → set_bits base (front ++ back)
        ≡ set_bits base front ++ set_bits (base + 8 * length front) back }
{}
