ghost use Rattle.std.specs.Prelude.{◌≡◌, ◌<◌, ◌≤◌, ◌+◌, ◌^◌, All, map, take};

/// Adds a number to the documents at the front of a block.
pub(crate) fn raise(block: &mut [u32; 128], count: usize, base: u32)
    requires count { count ≤ 128 }
    requires fits { All (λ doc. base + doc < 2 ^ 32) (take count block.old) }
    ensures { take count block.new ≡ map (λ doc. base + doc) (take count block.old) }
{
    'docs: for i in 0..count {
        block[i] = base + block[i];
    }
}
