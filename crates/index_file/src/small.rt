ghost use Rattle.std.specs.Prelude.{◌<◌, All};

/// That each byte is below 256: a caller learns it by the call.
#[inline(always)]
pub(crate) fn are_bytes(bytes: &[u8])
    ensures { All (λ byte. byte < 256) bytes.now }
{
    let _ = bytes;
}
