ghost use Rattle.std.specs.Prelude.{◌≡◌, ◌<◌, ◌+◌, length};
ghost use Rattle.index_model.specs.Querying.{segments_at};
ghost use Rattle.index_file.specs.Handing.{HandsOn};
ghost use Rattle.index_file.specs.Places.{segment_at};

use crate::cursor::Cursor;
use crate::figures::Head;
use crate::file::IndexFile;
use crate::piece::Piece;
use crate::source::Source;
use jass_base::Steps;
use segment_codecs::laws::bitmaps_are_their_documents;
use segment_codecs::{Codec, SegmentCursor};
use std::sync::ledger::Ledger;

/// How far the documents of a segment of a file have been handed out.
#[derive(Clone, Copy)]
pub enum Handing {
    /// A bitmap, which is handed out whole: it begins at a place among the payloads, and has so many bytes and
    /// documents.
    Bitmap { from: u32, size: u32, count: u32 },
    /// Another codec, whose documents are decoded in blocks.
    Blocks(Cursor),
}

impl Source for IndexFile {
    type Cursor = Handing;

    ghost index = { λ file. file.index };

    ghost left = { HandsOn };

    fn is_searchable(&self) {
        self.is_checked();
    }

    fn docs(&self) -> u32 {
        self.docs()
    }

    fn segments(&self, t: u32) -> u32 {
        self.segments(t)
    }

    fn head(&self, t: u32, s: u32) -> Head {
        self.head(t, s)
    }

    fn first_doc<L: Ledger>(&self, t: u32, s: u32, steps: &mut Steps<L>) -> u32 {
        self.first_doc(t, s, steps)
    }

    fn start(&self, t: u32, s: u32) -> Handing {
        bitmaps_are_their_documents();
        self.is_checked();
        let found = self.segment(t, s);
        match found.head.codec {
            Codec::Bitmap => Handing::Bitmap {
                from: found.place,
                size: found.head.size,
                count: found.head.count,
            },
            codec => Handing::Blocks(Cursor {
                segment: SegmentCursor::new(codec, found.head.count, self.docs()),
                from: found.place,
                size: found.head.size,
            }),
        }
    }

    fn hand_out<L: Ledger>(
        &self,
        cursor: &mut Handing,
        block: &mut [u32; 128],
        steps: &mut Steps<L>,
    ) -> Piece<'_> {
        match cursor {
            Handing::Bitmap { from, size, count } => {
                let all = *count;
                let first = *from as usize;
                let bits = &self.payloads.as_slice()[first..first + *size as usize];
                *size = 0;
                *count = 0;
                steps.add(u64::from(all));
                Piece::Bits {
                    row: 0,
                    bits,
                    count: all,
                }
            }
            Handing::Blocks(blocks) => Piece::Block {
                count: self.next_block(blocks, block, steps) as u32,
            },
        }
    }
}
