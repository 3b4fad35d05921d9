//! What stands before the payloads, put on a file in pieces.

ghost use Rattle.std.specs.Prelude.{◌≡◌, ◌≤◌, ◌<◌, ◌^◌, [], ◌++◌, length, map, false, All};
ghost use Rattle.jass_base.specs.Limits.{IsName};
ghost use Rattle.index_layout.specs.Bytes.{u32_bytes};
ghost use Rattle.index_layout.specs.Layout.{front_bytes, heads_bytes, name_bytes, names_bytes, term_bytes, terms_bytes, totals_bytes};
ghost use Rattle.index_write.specs.Chosen.{head_data};
ghost use Rattle.index_write.specs.Private.Pieces.{Adds, IsSent, Makes};
ghost use Rattle.index_write.specs.Streaming.{entry_data};
ghost use Rattle.index_write.specs.declared.term_heads.TermHeads.{TermHeads};
ghost use Rattle.jass_base.specs.declared.limits.TheConstants.{LONGEST_NAME, LONGEST_TERM};

use crate::front::{spelled_head, two_numbers};
use crate::head::PayloadHead;
use crate::lengths::shared_len;
use crate::pieces::{Pieces, create, put, put_text, send};
use crate::term_heads::TermHeads;
use jass_base::{Cabinet, Failed, Text};

/// Puts a name behind its length.
#[tactic(auto, unfolding(index_layout::specs::Layout::name_bytes))]
fn put_name<C: Cabinet>(name: &str, pieces: &mut Pieces, files: &mut C, file: &str)
    requires { length name.now ≤ LONGEST_NAME }
    ensures { Adds C.Cabinet files.old files.new file.now pieces.old pieces.new (name_bytes name.now) }
{
    let len = (name.len() as u32).to_le_bytes();
    put_text(&len, name.as_bytes(), pieces, files, file);
}

/// Puts the names of the documents.
fn put_names<C: Cabinet>(names: &[Text], pieces: &mut Pieces, files: &mut C, file: &str)
    requires { All IsName names.now }
    ensures { Adds C.Cabinet files.old files.new file.now pieces.old pieces.new (names_bytes names.now) }
{
    for name in names {
        put_name(name.as_str(), pieces, files, file);
    }
}

/// Puts the heads of a term.
fn put_heads<C: Cabinet>(heads: &[PayloadHead], pieces: &mut Pieces, files: &mut C, file: &str)
    ensures { Adds C.Cabinet files.old files.new file.now pieces.old pieces.new
        (heads_bytes (map head_data heads.now)) }
{
    for head in heads {
        put(&spelled_head(head), pieces, files, file);
    }
}

/// Puts a term behind the one before it.
#[tactic(auto, unfolding(index_layout::specs::Layout::term_bytes))]
fn put_term<C: Cabinet>(before: &[u8], term: &[u8], pieces: &mut Pieces, files: &mut C, file: &str)
    requires { length term.now ≤ LONGEST_TERM }
    ensures { Adds C.Cabinet files.old files.new file.now pieces.old pieces.new
        (term_bytes before.now term.now) }
{
    let shared = shared_len(before, term);
    let rest = &term[shared..];
    let head = two_numbers(shared as u16, rest.len() as u16);
    put_text(&head, rest, pieces, files, file);
}

/// Puts a term with the heads of its segments.
fn put_entry<C: Cabinet>(
    before: &[u8],
    term: &[u8],
    heads: &[PayloadHead],
    pieces: &mut Pieces,
    files: &mut C,
    file: &str,
)
    requires term { length term.now ≤ LONGEST_TERM }
    requires heads { length heads.now < 2 ^ 32 }
    ensures { Adds C.Cabinet files.old files.new file.now pieces.old pieces.new
        (term_bytes before.now term.now ++ (u32_bytes (length heads.now) ++ heads_bytes (map head_data heads.now))) }
{
    put_term(before, term, pieces, files, file);
    put(&(heads.len() as u32).to_le_bytes(), pieces, files, file);
    put_heads(heads, pieces, files, file);
}

/// Puts terms with their heads.
fn put_entries<C: Cabinet>(entries: &[TermHeads], pieces: &mut Pieces, files: &mut C, file: &str)
    requires fit { All (λ (t : TermHeads). length t.term ≤ LONGEST_TERM) entries.now }
    requires few { All (λ (t : TermHeads). length t.heads < 2 ^ 32) entries.now }
    ensures { Adds C.Cabinet files.old files.new file.now pieces.old pieces.new
        (terms_bytes [] (map entry_data entries.now)) }
{
    let mut before: &[u8] = b"";
    for entry in entries {
        let term = entry.term.as_str().as_bytes();
        put_entry(before, term, entry.heads.as_slice(), pieces, files, file);
        before = term;
    }
}

/// Fills a file with what stands before the payloads, whose first 40 bytes are these. The answer is
/// whether writing failed.
fn fill<C: Cabinet>(
    first: &[u8],
    names: &[Text],
    entries: &[TermHeads],
    files: &mut C,
    name: &str,
) -> bool
    requires first { first.now ≡ totals_bytes names.now (map entry_data entries.now) }
    requires names { All IsName names.now }
    requires fit { All (λ (t : TermHeads). length t.term ≤ LONGEST_TERM) entries.now }
    requires few { All (λ (t : TermHeads). length t.heads < 2 ^ 32) entries.now }
    ensures { (start : C) → IsSent C.Cabinet start files.old name.now false []
        → IsSent C.Cabinet start files.new name.now result (front_bytes names.now (map entry_data entries.now)) }
{
    let mut pieces = Pieces::new();
    put(first, &mut pieces, files, name);
    put_names(names, &mut pieces, files, name);
    put_entries(entries, &mut pieces, files, name);
    send(&mut pieces, files, name);
    pieces.failed()
}

/// Makes a file what stands before the payloads, whose first 40 bytes are these.
pub fn put_front<C: Cabinet>(
    first: &[u8],
    names: &[Text],
    entries: &[TermHeads],
    files: &mut C,
    name: &str,
) -> Result<(), Failed>
    requires first { first.now ≡ totals_bytes names.now (map entry_data entries.now) }
    requires names { All IsName names.now }
    requires fit { All (λ (t : TermHeads). length t.term ≤ LONGEST_TERM) entries.now }
    requires few { All (λ (t : TermHeads). length t.heads < 2 ^ 32) entries.now }
    ensures { Makes C.Cabinet files.old files.new name.now (front_bytes names.now (map entry_data entries.now)) result }
{
    if create(files, name) {
        return Err(Failed);
    }
    if fill(first, names, entries, files, name) {
        return Err(Failed);
    }
    Ok(())
}
