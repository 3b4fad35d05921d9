ghost use Rattle.std.specs.Prelude.{◌≡◌, ◌+◌, ◌*◌, ◌≤◌, ◌++◌, length, flat_map, All};
ghost use Rattle.std.specs.List.Sorted.{IsStrictlyIncreasing};
ghost use Rattle.jass_base.specs.Postings.{docs_of};
ghost use Rattle.jass_base.specs.Wire.{short_varint};
ghost use Rattle.jass_base.specs.CiffText.{sized, number_spelling, postings_spelling, list_body};
ghost use Rattle.jass_base.specs.CiffViews.{list_data};
ghost use Rattle.jass_base.specs.declared.postings_list.PostingsList.{PostingsList};
ghost use Rattle.gathered_text.specs.Gathering.{Gathers};
ghost use Rattle.jass_base.specs.declared.limits.TheConstants.{MOST_DOCUMENTS};

use crate::gather::{put_number, put_size, put_text};
use crate::lengths::{number_len, postings_len, text_len};
use crate::spelling::{POSTING_ROOM, push_posting};
use gathered_text::{Buffer, make_room};
use jass_base::{Posting, PostingsList, Sink, WriteFault};

const TERM: u8 = 1;

const DF: u8 = 2;

const CF: u8 = 3;

/// Puts the messages of postings lists.
pub fn put_lists<S: Sink>(
    out: &mut S,
    buffer: &mut Buffer,
    lists: &[PostingsList],
) -> Result<(), WriteFault>
    requires { All (λ (l : PostingsList). length l.postings ≤ MOST_DOCUMENTS) lists.now }
    ensures { Gathers S.written S.faults S.rest out.old out.new buffer.old buffer.new
        (flat_map (λ (l : PostingsList). sized (list_body (list_data l))) lists.now) result }
{
    for list in lists {
        put_list(out, buffer, list)?;
    }
    Ok(())
}

/// Puts the message of a postings list.
fn put_list<S: Sink>(
    out: &mut S,
    buffer: &mut Buffer,
    list: &PostingsList,
) -> Result<(), WriteFault>
    requires { length list.now.postings ≤ MOST_DOCUMENTS }
    ensures { Gathers S.written S.faults S.rest out.old out.new buffer.old buffer.new
        (sized (list_body (list_data list.now))) result }
{
    put_size(out, buffer, list_len(list))?;
    put_text(out, buffer, TERM, list.term.as_str())?;
    put_number(out, buffer, DF, list.df)?;
    put_number(out, buffer, CF, list.cf)?;
    put_postings(out, buffer, list.postings.as_slice())
}

/// The bytes of the body of a postings list.
fn list_len(list: &PostingsList) -> u64
    requires { length list.now.postings ≤ MOST_DOCUMENTS }
    ensures { result ≡ length (list_body (list_data list.now)) }
{
    let counts = number_len(list.df) + number_len(list.cf);
    text_len(list.term.as_str()) + u64::from(counts) + postings_len(list.postings.as_slice())
}

/// Puts the fields of the postings of a list.
fn put_postings<S: Sink>(
    out: &mut S,
    buffer: &mut Buffer,
    postings: &[Posting],
) -> Result<(), WriteFault>
    requires { IsStrictlyIncreasing (docs_of postings.now) }
    ensures { Gathers S.written S.faults S.rest out.old out.new buffer.old buffer.new
        (postings_spelling 0 postings.now) result }
{
    let mut last = 0;
    for posting in postings {
        put_posting(out, buffer, posting.doc - last, posting.tf)?;
        last = posting.doc;
    }
    Ok(())
}

/// Puts the field of a posting, by its gap.
#[inline(always)]
fn put_posting<S: Sink>(
    out: &mut S,
    buffer: &mut Buffer,
    gap: u32,
    tf: u32,
) -> Result<(), WriteFault>
    ensures { Gathers S.written S.faults S.rest out.old out.new buffer.old buffer.new
        (short_varint (4 * 8 + 2) ++ sized (number_spelling 1 gap ++ number_spelling 2 tf)) result }
{
    make_room(out, buffer, POSTING_ROOM)?;
    push_posting(buffer, gap, tf);
    Ok(())
}
