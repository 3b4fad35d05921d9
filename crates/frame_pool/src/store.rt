ghost use Rattle.std.specs.Prelude.{◌≡◌, ◌<◌, ◌≤◌, IfOk, false, length, map, replicate, slice_index, slice_set};
ghost use Rattle.std.specs.List.{range_with_len};
ghost use Rattle.frame_pool.specs.Frames.{cleared_frame, free_frame};
ghost use Rattle.frame_pool.specs.Private.Tables.{frame_at, free_head, linked, placed, scored};
ghost use Rattle.std.specs.Borrow.{sem};
ghost use Rattle.jass_base.specs.declared.limits.TheConstants.{MOST_FRAMES};
ghost use Rattle.frame_pool.specs.Private.Lending.{LendsRow};

use jass_base::NoMemory;
use lane_kernels::fill_zero;
use std::alloc::Global;
use std::marker::Model;

/// The documents of a page, each of which has a slot.
const SLOTS: usize = 256;

/// The page of a frame, the link to the next frame of the list that the frame is in, and whether a heap place was set
/// since the frame was taken.
#[derive(Clone, Copy)]
pub(crate) struct Head {
    pub(crate) page: u32,
    pub(crate) next: u32,
    pub(crate) placed: bool,
}

/// Frames, with all scores side by side and all heap places side by side: most postings look at a score alone.
///
/// Contracts see it as a list of whole frames.
#[derive(Drop)]
pub(crate) struct FrameStore {
    heads: Vec<Head>,
    scores: Vec<[u32; SLOTS]>,
    places: Vec<[u32; SLOTS]>,
}

impl Model for FrameStore {
    ghost use Rattle.std.specs.Prelude.{List};
    ghost use Rattle.frame_pool.specs.Frames.{Frame};
    ghost use Rattle.frame_pool.specs.Private.Tables.{AreRows, frames_of};

    ghost Value = { List Frame };

    ghost view = { λ s. frames_of s.heads.items s.scores.items s.places.items };

    ghost invariant = { λ s. AreRows s.heads.items s.scores.items s.places.items };
}

impl FrameStore {
    /// So many frames, each linked to the one behind it.
    pub(crate) fn linked(alloc: Global, count: u32) -> Result<FrameStore, NoMemory>
        requires { count ≤ MOST_FRAMES }
        ensures { IfOk result (λ store. store ≡ map free_frame (range_with_len 1 count)) }
    {
        let heads = linked_heads(alloc, count)?;
        let scores = zero_rows(alloc, count)?;
        let places = zero_rows(alloc, count)?;
        Ok(FrameStore {
            heads,
            scores,
            places,
        })
    }

    pub(crate) fn len(&self) -> usize
        ensures { result ≡ length self.now }
    {
        self.heads.len()
    }

    pub(crate) fn page(&self, frame: u32) -> u32
        requires { frame < length self.now }
        ensures { result ≡ (frame_at self.now frame).page }
    {
        self.heads[frame as usize].page
    }

    pub(crate) fn next(&self, frame: u32) -> u32
        requires { frame < length self.now }
        ensures { result ≡ (frame_at self.now frame).next }
    {
        self.heads[frame as usize].next
    }

    pub(crate) fn link(&mut self, frame: u32, next: u32)
        requires { frame < length self.old }
        ensures { self.new ≡ slice_set self.old frame (linked (frame_at self.old frame) next) }
    {
        self.heads[frame as usize].next = next;
    }

    pub(crate) fn scores(&self, frame: u32) -> &[u32; SLOTS]
        requires { frame < length self.now }
        ensures { result.now ≡ (frame_at self.now frame).scores }
    {
        let row = &self.scores[frame as usize];
        a_row_is_whole(row);
        row
    }

    pub(crate) fn scores_mut(&mut self, frame: u32) -> &mut [u32; SLOTS]
        requires { frame < length self.old }
        ensures* writes_back { sem 𝓛 (LendsRow self.entry frame result) }
        ensures scores { result.now ≡ (frame_at self.old frame).scores }
        ensures slots { length result.now ≡ 256 }
    {
        a_row_is_whole(&self.scores[frame as usize]);
        &mut self.scores[frame as usize]
    }

    pub(crate) fn set_score(&mut self, frame: u32, slot: u8, score: u32)
        requires { frame < length self.old }
        ensures { self.new ≡ slice_set self.old frame (scored (frame_at self.old frame) slot score) }
    {
        self.scores_mut(frame)[slot as usize] = score;
    }

    pub(crate) fn place(&self, frame: u32, slot: u8) -> u32
        requires { frame < length self.now }
        ensures { result ≡ slice_index (frame_at self.now frame).places slot }
    {
        self.places[frame as usize][slot as usize]
    }

    pub(crate) fn set_place(&mut self, frame: u32, slot: u8, place: u32)
        requires { frame < length self.old }
        ensures { self.new ≡ slice_set self.old frame (placed (frame_at self.old frame) slot place) }
    {
        self.heads[frame as usize].placed = true;
        self.places[frame as usize][slot as usize] = place;
    }

    /// Makes it the frame of a page without scores. Heap places that were never set are 0 still.
    pub(crate) fn clear(&mut self, frame: u32, page: u32, next: u32)
        requires { frame < length self.old }
        ensures { self.new ≡ slice_set self.old frame (cleared_frame page next) }
    {
        let at = frame as usize;
        clear_scores(&mut self.scores[at]);
        clear_places(&mut self.places[at], self.heads[at].placed);
        self.heads[at] = Head {
            page,
            next,
            placed: false,
        };
    }
}

/// A law: a row has a slot for each document of a page. The function does nothing: a caller learns it by the call.
fn a_row_is_whole(row: &[u32; SLOTS])
    ensures { length row.now ≡ 256 }
{}

fn clear_scores(scores: &mut [u32; SLOTS])
    ensures { scores.new ≡ replicate 256 0 }
{
    fill_zero(scores);
}

/// Sets all heap places of a frame to 0, which they are where none was set.
fn clear_places(places: &mut [u32; SLOTS], placed: bool)
    requires { placed ≡ false → places.old ≡ replicate 256 0 }
    ensures { places.new ≡ replicate 256 0 }
{
    if placed {
        fill_zero(places);
    }
}

fn linked_heads(alloc: Global, count: u32) -> Result<Vec<Head>, NoMemory>
    requires { count ≤ MOST_FRAMES }
    ensures { IfOk result (λ heads. heads.items ≡ map free_head (range_with_len 1 count)) }
{
    let mut heads = Vec::with_capacity(alloc, count as usize)?;
    for number in 0..count {
        let head = Head {
            page: 0,
            next: number + 1,
            placed: false,
        };
        heads.push(head)?;
    }
    Ok(heads)
}

fn zero_rows(alloc: Global, count: u32) -> Result<Vec<[u32; SLOTS]>, NoMemory>
    ensures { IfOk result (λ rows. rows.items ≡ replicate count (replicate 256 0)) }
{
    let mut rows = Vec::with_capacity(alloc, count as usize)?;
    for _ in 0..count {
        rows.push([0; SLOTS])?;
    }
    Ok(rows)
}
