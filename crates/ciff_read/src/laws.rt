//! What reading gives is the collection that a file stands for.

ghost use Rattle.std.specs.Prelude.{ℕ, ◌≡◌, ◌<◌, ◌≤◌, ◌+◌, List, take, Some, Ok, Err};
ghost use Rattle.std.specs.List.{AllPairs};
ghost use Rattle.std.specs.List.Sorted.{IsPermutation};
ghost use Rattle.jass_base.specs.Ciff.{HeaderData, CollectionData, IsCiff};
ghost use Rattle.jass_base.specs.declared.limits.TheConstants.{LONGEST_FILE};
ghost use Rattle.ciff_read.specs.Assembling.{Parts, Assembles, only_header, with_piece, by_number, collection_of};
ghost use Rattle.ciff_read.specs.Judging.{NumberedDoc};
ghost use Rattle.ciff_read.specs.Moving.{moved};
ghost use Rattle.ciff_read.specs.Pieces.{Progress, Step, FileHeader, EndPiece, IsReached};
ghost use Rattle.ciff_read.specs.Pieces.{header_of_file, begun, next_of};
ghost use Rattle.ciff_read.specs.declared.refusal.CiffRefusal.{CiffRefusal};
ghost use Rattle.ciff_read.specs.Reading.{Message, message_end, header_at, list_at, doc_at, read_ciff};

use wire_fields::laws::{fields_are_read, varints_are_read};

/// A collection is read exactly from the files that stand for it, and a file stands for one
/// collection.
pub fn files_are_read()
    ensures found { (bytes : List ℕ) (c : CollectionData) → read_ciff bytes ≡ Ok c → IsCiff bytes c }
    ensures only { (bytes : List ℕ) (c : CollectionData) → IsCiff bytes c → read_ciff bytes ≡ Ok c }
    ensures one { (bytes : List ℕ) (c d : CollectionData) → IsCiff bytes c → IsCiff bytes d → c ≡ d }
{
    varints_are_read();
    fields_are_read();
}

/// The first 2^32 + 16 bytes decide what is read: a message ends by place 2^32, and the length
/// of the next one has at most ten bytes.
pub fn the_front_is_enough()
    ensures { (bytes : List ℕ) → read_ciff (take (LONGEST_FILE + 16) bytes) ≡ read_ciff bytes }
{}

/// A message is judged by its bytes alone: where it stands further on, its refusals do, too.
pub fn messages_move()
    ensures header { (base at : ℕ) (m n : Message) → n.from ≡ base + m.from → n.body ≡ m.body
        → header_at (base + at) n ≡ moved base (header_at at m) }
    ensures list { (base at : ℕ) (m n : Message) → n.from ≡ base + m.from → n.body ≡ m.body
        → (docs before : ℕ) (terms : List (List ℕ))
        → list_at docs before terms (base + at) n ≡ moved base (list_at docs before terms at m) }
    ensures doc { (base at : ℕ) (m n : Message) → n.from ≡ base + m.from → n.body ≡ m.body
        → (docs : ℕ) (numbers : List ℕ) → doc_at docs numbers (base + at) n ≡ moved base (doc_at docs numbers at m) }
{
    varints_are_read();
    fields_are_read();
}

/// A refusal of a message stands at the message's place or within its body.
pub fn refusals_are_near()
    ensures header { (at n : ℕ) (m : Message) (e : CiffRefusal) → at ≤ n → message_end m ≤ n
        → header_at at m ≡ Err e → e.at ≤ n }
    ensures list { (at n : ℕ) (m : Message) (e : CiffRefusal) → at ≤ n → message_end m ≤ n
        → (docs before : ℕ) (terms : List (List ℕ)) → list_at docs before terms at m ≡ Err e → e.at ≤ n }
    ensures doc { (at n : ℕ) (m : Message) (e : CiffRefusal) → at ≤ n → message_end m ≤ n
        → (docs : ℕ) (numbers : List ℕ) → doc_at docs numbers at m ≡ Err e → e.at ≤ n }
{
    varints_are_read();
    fields_are_read();
}

/// What is given of a file piece by piece makes up the collection that is read of it, and is
/// refused where reading is.
pub fn pieces_make_the_collection()
    ensures header { (content : List ℕ) (h : FileHeader) → header_of_file content ≡ Ok h
        → Assembles content (begun h) (only_header h.start.header) }
    ensures bad_header { (content : List ℕ) (e : CiffRefusal) → header_of_file content ≡ Err e
        → read_ciff content ≡ Err e }
    ensures start { (content : List ℕ) (p : Progress) (h : HeaderData) → IsReached content p → p.header ≡ Some h
        → Assembles content p (only_header h) }
    ensures piece { (content : List ℕ) (p : Progress) (parts : Parts) (s : Step) → Assembles content p parts
        → next_of content p ≡ Ok s → Assembles content s.later (with_piece parts s.piece) }
    ensures end { (content : List ℕ) (p : Progress) (parts : Parts) (s : Step) → Assembles content p parts
        → next_of content p ≡ Ok s → s.piece ≡ EndPiece → read_ciff content ≡ Ok (collection_of parts) }
    ensures refused { (content : List ℕ) (p : Progress) (parts : Parts) (e : CiffRefusal) → Assembles content p parts
        → next_of content p ≡ Err e → read_ciff content ≡ Err e }
{
    varints_are_read();
    fields_are_read();
}

/// Records whose numbers differ have one order by rising numbers.
pub fn records_have_one_order()
    ensures { (records ordered : List NumberedDoc) → IsPermutation ordered records
        → AllPairs (λ (a b : NumberedDoc). a.number < b.number) ordered → by_number records ≡ ordered }
{}
