//! The definitions run on small files (`specs/Examples.antt`): each clause is proved by computing
//! both sides.

ghost use Rattle.std.specs.Prelude.{◌≡◌, [], ◌∷◌, ◌++◌, codes, drop, take, length, Ok, Some};
ghost use Rattle.jass_base.specs.declared.payload_fault.PayloadFault.TheVariants.{DocRange};
ghost use Rattle.index_layout.specs.declared.refusal.OpenWhy.TheVariants.{Old, Magic, Length, TermOrder, Payload, DocTwice};
ghost use Rattle.index_layout.specs.Examples.{last_head, small_view, small_front, small_file, no_documents, empty_file};
ghost use Rattle.index_layout.specs.Layout.{term_bytes};
ghost use Rattle.index_layout.specs.Reading.{head_in, payload_end, read_index, term_end};
ghost use Rattle.index_layout.specs.Refusals.{refuse};
ghost use Rattle.index_layout.specs.View.{IsFileView, file_bytes, index_text};

use crate::laws::files_are_read;

/// The bytes of an index of three documents and one term, and of an index without documents.
pub fn small_files_are_spelled()
    ensures small { file_bytes small_view ≡ small_file }
    ensures size { length small_file ≡ 103 }
    ensures empty { index_text no_documents ≡ empty_file }
    ensures empty_size { length empty_file ≡ 40 }
{}

/// `cat` shares two bytes with `car`.
#[tactic(auto, unfolding(crate::specs::Layout::term_bytes))]
pub fn terms_are_front_coded()
    ensures first { term_bytes [] (codes "car") ≡ 0 ∷ 0 ∷ 3 ∷ 0 ∷ codes "car" }
    ensures second { term_bytes (codes "car") (codes "cat") ≡ 2 ∷ 0 ∷ 1 ∷ 0 ∷ codes "t" }
{}

/// The small file is read as its view.
pub fn the_small_file_is_read()
    ensures view { IsFileView small_view }
    ensures read { read_index small_file ≡ Ok small_view }
{
    small_files_are_spelled();
    files_are_read();
}

/// The file of an index without documents is read. A file that is cut, or whose first byte is
/// another, or that is of version 1, is refused.
pub fn fronts_are_judged()
    ensures empty { read_index empty_file ≡ Ok (record { index = no_documents; codecs = [] }) }
    ensures cut { read_index (take 102 small_file) ≡ refuse 8 Length }
    ensures magic { read_index (75 ∷ drop 1 small_file) ≡ refuse 0 Magic }
    ensures old { read_index (codes "JASSIDX1" ++ drop 8 small_file) ≡ refuse 0 Old }
{}

/// A term that shares two bytes and says that it shares one is refused.
pub fn terms_share_all_they_can()
    ensures { term_end (1 ∷ 0 ∷ 2 ∷ 0 ∷ codes "at" ++ 1 ∷ 0 ∷ 0 ∷ 0 ∷ []) (Some (codes "car")) 0
        ≡ refuse 0 TermOrder }
{}

/// The last payload of the small file is read; with a document past the last, or one that the
/// term has already, it is refused.
pub fn payloads_are_judged()
    ensures head { head_in small_file 89 ≡ last_head }
    ensures read { payload_end small_file 3 (0 ∷ 1 ∷ []) last_head 102 ≡ Ok 103 }
    ensures document { payload_end (small_front ++ 0 ∷ 1 ∷ 3 ∷ []) 3 (0 ∷ 1 ∷ []) last_head 102
        ≡ refuse 102 (Payload DocRange) }
    ensures twice { payload_end (small_front ++ 0 ∷ 1 ∷ 0 ∷ []) 3 (0 ∷ 1 ∷ []) last_head 102
        ≡ refuse 102 DocTwice }
    ensures missing { payload_end small_front 3 (0 ∷ 1 ∷ []) last_head 102 ≡ refuse 102 Length }
{}
