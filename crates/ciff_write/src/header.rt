ghost use Rattle.std.specs.Prelude.{◌≡◌, ◌+◌, ◌≤◌, ◌==◌, ◌++◌, length};
ghost use Rattle.std.specs.List.{list_all};
ghost use Rattle.jass_base.specs.CiffText.{sized, number_spelling, eight_spelling, header_body};
ghost use Rattle.jass_base.specs.CiffViews.{header_data};
ghost use Rattle.gathered_text.specs.Gathering.{Gathers};
ghost use Rattle.gathered_text.specs.declared.buffer.TheConstants.{ROOM};

use crate::gather::{put_size, put_text};
use crate::lengths::{number_len, text_len};
use crate::spelling::push_number;
use gathered_text::{Buffer, make_room};
use jass_base::{Header, Sink, WriteFault};

const VERSION: u8 = 1;

const LISTS: u8 = 2;

const DOCS: u8 = 3;

const TOTAL_LISTS: u8 = 4;

const TOTAL_DOCS: u8 = 5;

const TOTAL_TERMS: u8 = 6;

const DESCRIPTION: u8 = 8;

/// The tag of the average length: field 7, eight bytes.
const AVERAGE: u8 = 57;

/// The most bytes of the six numbers of a header and its average length.
const NUMBERS_ROOM: usize = 75;

/// Puts the message of the header, in front of so many lists and documents.
pub fn put_header<S: Sink>(
    out: &mut S,
    buffer: &mut Buffer,
    header: &Header,
    lists: u64,
    docs: u64,
) -> Result<(), WriteFault>
    ensures { Gathers S.written S.faults S.rest out.old out.new buffer.old buffer.new
        (sized (header_body (header_data header.now) lists docs)) result }
{
    put_size(out, buffer, header_len(header, lists, docs))?;
    make_room(out, buffer, NUMBERS_ROOM)?;
    push_numbers(buffer, header, lists, docs);
    push_average(buffer, &header.average);
    put_text(out, buffer, DESCRIPTION, header.description.as_str())
}

/// The bytes of the body of a header.
fn header_len(header: &Header, lists: u64, docs: u64) -> u64
    ensures { result ≡ length (header_body (header_data header.now) lists docs) }
{
    let counts = number_len(u64::from(header.version)) + number_len(lists) + number_len(docs);
    let totals = number_len(u64::from(header.total_lists))
        + number_len(u64::from(header.total_docs))
        + number_len(header.total_terms);
    let average = average_len(&header.average);
    text_len(header.description.as_str()) + u64::from(counts + totals + average)
}

/// The bytes of the field of the average length.
fn average_len(average: &[u8; 8]) -> u8
    ensures len { result ≡ length (eight_spelling 7 average.now) }
    ensures few { result ≤ 9 }
{
    if is_zero(average) { 0 } else { 9 }
}

/// Puts the numbers of a header.
fn push_numbers(buffer: &mut Buffer, header: &Header, lists: u64, docs: u64)
    requires { length buffer.old + 66 ≤ ROOM }
    ensures bytes { buffer.new ≡ buffer.old
        ++ (number_spelling 1 header.now.version ++ number_spelling 2 lists ++ number_spelling 3 docs
        ++ number_spelling 4 header.now.total_lists ++ number_spelling 5 header.now.total_docs
        ++ number_spelling 6 header.now.total_terms) }
    ensures few { length buffer.new ≤ length buffer.old + 66 }
{
    push_number(buffer, VERSION, u64::from(header.version));
    push_number(buffer, LISTS, lists);
    push_number(buffer, DOCS, docs);
    push_number(buffer, TOTAL_LISTS, u64::from(header.total_lists));
    push_number(buffer, TOTAL_DOCS, u64::from(header.total_docs));
    push_number(buffer, TOTAL_TERMS, header.total_terms);
}

/// Puts the average length, or nothing for eight zeros.
fn push_average(buffer: &mut Buffer, average: &[u8; 8])
    requires { length buffer.old + 9 ≤ ROOM }
    ensures { buffer.new ≡ buffer.old ++ eight_spelling 7 average.now }
{
    if !is_zero(average) {
        buffer.push_byte(AVERAGE);
        buffer.push(average);
    }
}

fn is_zero(bytes: &[u8; 8]) -> bool
    ensures { result ≡ list_all (λ b. b == 0) bytes.now }
{
    bytes.iter().all(|byte| *byte == 0)
}
