ghost use Rattle.std.specs.Prelude.{◌≡◌, ◌≢◌, ℕ, ◌/◌, ◌<◌, ◌≤◌, All, IfOk, length, replicate, slice_index, slice_set, vec_capacity};
ghost use Rattle.jass_base.specs.declared.limits.TheConstants.{MOST_DOCUMENTS};
ghost use Rattle.accumulator_pages.specs.Adding.{page_count};
ghost use Rattle.accumulator_pages.specs.Pages.{no_frame};
ghost use Rattle.sharp_bounds.specs.Marks.{marked};
ghost use Rattle.sharp_bounds.specs.Masks.{HasMaskFrame, with_place};
ghost use Rattle.sharp_bounds.specs.Private.MaskRows.{AreRowsOf, mask_in};

use crate::mask_laws::a_frame_for_each_page_is_enough;
use jass_base::NoMemory;
use std::alloc::Global;
use std::marker::Model;

/// The documents of a page.
const PAGE_DOCS: u32 = 256;

/// The entry of a page that has no row.
const NO_FRAME: u32 = u32::MAX;

/// For each document a mask of 64 bits, one for each term that it was seen in. The masks of 256
/// documents, a page, stand in one frame, which is taken and cleared when the first of them is
/// marked; all other masks are 0.
///
/// Contracts see it as the number of frames and the mask of each document.
#[derive(Drop)]
pub struct Masks {
    docs: u32,
    /// The frame of each page, by its number in `rows`.
    table: Vec<u32>,
    /// The frames that are taken; there is room for all.
    rows: Vec<[u64; 256]>,
}

impl Model for Masks {
    ghost use Rattle.std.specs.Prelude.{vec_capacity};
    ghost use Rattle.sharp_bounds.specs.Masks.{MasksView};
    ghost use Rattle.sharp_bounds.specs.Private.MaskRows.{MasksKept, view_of};

    ghost Value = { MasksView };

    ghost view = { λ m. view_of m.docs (vec_capacity m.rows) m.table.items m.rows.items };

    ghost invariant = { λ m. MasksKept m.docs (vec_capacity m.rows) m.table.items m.rows.items };
}

impl Masks {
    /// The masks of so many documents, all 0, with room for so many frames. It takes 2,048 bytes a
    /// frame and 4 a page, and no other call takes memory.
    pub fn new(alloc: Global, docs: u32, frames: u32) -> Result<Masks, NoMemory>
        requires docs { docs ≤ MOST_DOCUMENTS }
        requires frames { frames ≤ page_count docs }
        ensures masks { IfOk result (λ masks. masks.masks ≡ replicate docs 0) }
        ensures frames { IfOk result (λ masks. masks.frames ≡ frames) }
    {
        let rows = match Vec::with_capacity(alloc, frames as usize) {
            Ok(rows) => rows,
            Err(_) => return Err(NoMemory),
        };
        match vec![in alloc; NO_FRAME; docs.div_ceil(PAGE_DOCS) as usize] {
            Ok(table) => Ok(Masks { docs, table, rows }),
            Err(_) => Err(NoMemory),
        }
    }

    /// Sets the bit of a place in the mask of a document.
    pub fn mark(&mut self, doc: u32, place: u8)
        requires inside { doc < length self.old.masks }
        requires place { place < 64 }
        requires frame { HasMaskFrame self.old (doc / 256) }
        ensures masks { self.new.masks
            ≡ slice_set self.old.masks doc (with_place (slice_index self.old.masks doc) place) }
        ensures frames { self.new.frames ≡ self.old.frames }
    {
        let row = row_of(&mut self.table, &mut self.rows, doc / PAGE_DOCS);
        let slot = (doc % PAGE_DOCS) as usize;
        self.rows[row][slot] |= 1 << place;
    }

    /// Sets the bit of a place in the masks of some documents, where there is a frame for each page.
    pub fn mark_all(&mut self, docs: &[u32], place: u8)
        requires inside { All (λ doc. doc < length self.old.masks) docs.now }
        requires place { place < 64 }
        requires frames { page_count (length self.old.masks) ≤ self.old.frames }
        ensures masks { self.new.masks ≡ marked place docs.now self.old.masks }
        ensures frames { self.new.frames ≡ self.old.frames }
    {
        a_frame_for_each_page_is_enough();
        for doc in docs {
            self.mark(*doc, place);
        }
    }

    /// The mask of a document: bit `place` is set where it was marked with that place.
    pub fn mask(&self, doc: u32) -> u64
        requires { doc < length self.now.masks }
        ensures { result ≡ slice_index self.now.masks doc }
    {
        let row = self.table[(doc / PAGE_DOCS) as usize] as usize;
        if row < self.rows.len() {
            self.rows[row][(doc % PAGE_DOCS) as usize]
        } else {
            0
        }
    }
}

/// The row of a page, which is made where the page has none.
fn row_of(table: &mut Vec<u32>, rows: &mut Vec<[u64; 256]>, page: u32) -> usize
    requires inside { page < length table.old.items }
    requires rows { AreRowsOf (vec_capacity rows.old) table.old.items rows.old.items }
    requires room { slice_index table.old.items page ≡ no_frame → length rows.old.items < vec_capacity rows.old }
    ensures rows { AreRowsOf (vec_capacity rows.new) table.new.items rows.new.items }
    ensures row { slice_index table.new.items page ≡ result }
    ensures within { result < length rows.new.items }
    ensures table { length table.new.items ≡ length table.old.items }
    ensures capacity { vec_capacity rows.new ≡ vec_capacity rows.old }
    ensures masks { (doc : ℕ) → mask_in table.new.items rows.new.items doc ≡ mask_in table.old.items rows.old.items doc }
    ensures others { (other : ℕ) → other ≢ page
        → slice_index table.new.items other ≡ slice_index table.old.items other }
{
    let entry = table[page as usize] as usize;
    if entry < rows.len() {
        return entry;
    }
    let row = rows.len();
    rows.push_reserved([0; 256]);
    table[page as usize] = row as u32;
    row
}
