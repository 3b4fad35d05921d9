ghost use Rattle.std.specs.Prelude.{◌≤◌, length};
ghost use Rattle.jass_base.specs.Outside.{AreBytesAt};

/// Copies bytes from a place on to the front of a buffer, and answers how many.
pub fn copy_at(bytes: &[u8], at: usize, buf: &mut [u8]) -> usize
    ensures bytes { AreBytesAt bytes.now at result buf.new }
    ensures fits { result ≤ length buf.old }
{
    let at = at.min(bytes.len());
    let rest = &bytes[at..];
    let count = rest.len().min(buf.len());
    buf[..count].copy_from_slice(&rest[..count]);
    count
}
