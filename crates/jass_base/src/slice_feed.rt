ghost use Rattle.std.specs.Prelude.{◌≡◌, Some};

use crate::faults::Failed;
use crate::feed::Feed;

/// A feed over bytes that it borrows. It never fails.
#[derive(Drop)]
pub struct SliceFeed<'a> {
    rest: &'a [u8],
}

impl<'a> SliceFeed<'a> {
    pub fn new(bytes: &'a [u8]) -> SliceFeed<'a>
        ensures { ⟦<SliceFeed<'a> as Feed>⟧.left result ≡ Some bytes.now }
    {
        SliceFeed { rest: bytes }
    }
}

impl<'a> Feed for SliceFeed<'a> {
    ghost left = { λ f. Some f.rest.now };

    ghost faults = { λ _. 0 };

    fn read(&mut self, buf: &mut [u8]) -> Result<usize, Failed> {
        let count = self.rest.len().min(buf.len());
        let (front, rest) = self.rest.split_at(count);
        buf[..count].copy_from_slice(front);
        self.rest = rest;
        Ok(count)
    }
}
