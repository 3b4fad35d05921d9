//! What stands before the payloads.

ghost use Rattle.std.specs.Prelude.{◌≡◌, ◌≤◌, ◌<◌, ◌+◌, ◌^◌, [], ◌++◌, length, map, All, OnOk};
ghost use Rattle.jass_base.specs.Limits.{IsName};
ghost use Rattle.index_model.specs.Views.{term_data};
ghost use Rattle.index_layout.specs.Bytes.{u16_bytes, u32_bytes};
ghost use Rattle.index_layout.specs.Layout.{name_bytes, names_bytes, head_bytes, heads_bytes, term_bytes, terms_bytes};
ghost use Rattle.index_write.specs.Chosen.{head_data, chosen_terms};
ghost use Rattle.index_write.specs.Private.Table.{table_of};
ghost use Rattle.jass_base.specs.declared.limits.TheConstants.{GREATEST_IMPACT, LONGEST_NAME, LONGEST_TERM};

use crate::head::PayloadHead;
use crate::head_row::HeadRow;
use crate::laws::terms_have_documents;
use crate::lengths::shared_len;
use jass_base::{ImpactIndex, NoMemory, Row, Text};

/// Appends a name behind its length.
#[tactic(auto, unfolding(index_layout::specs::Layout::name_bytes))]
pub fn put_name(name: &str, out: &mut Row<u8>) -> Result<(), NoMemory>
    requires { length name.now ≤ LONGEST_NAME }
    ensures { OnOk result (out.new ≡ out.old ++ name_bytes name.now) }
{
    out.extend(&(name.len() as u32).to_le_bytes())?;
    out.extend(name.as_bytes())
}

/// Appends the names of the documents.
pub fn put_names(names: &[Text], out: &mut Row<u8>) -> Result<(), NoMemory>
    requires { All IsName names.now }
    ensures { OnOk result (out.new ≡ out.old ++ names_bytes names.now) }
{
    for name in names {
        put_name(name.as_str(), out)?;
    }
    Ok(())
}

/// The bytes of a head: impact, count, codec, size of the payload.
#[tactic(auto, unfolding(index_layout::specs::Layout::head_bytes))]
#[inline(always)]
pub fn spelled_head(head: &PayloadHead) -> [u8; 11]
    ensures { result ≡ head_bytes (head_data head.now) }
{
    let impact = head.impact.to_le_bytes();
    let count = head.count.to_le_bytes();
    let size = head.bytes.to_le_bytes();
    [
        impact[0],
        impact[1],
        count[0],
        count[1],
        count[2],
        count[3],
        head.codec.number(),
        size[0],
        size[1],
        size[2],
        size[3],
    ]
}

/// Appends the heads of a term behind their count.
fn put_heads(heads: &[PayloadHead], out: &mut Row<u8>) -> Result<(), NoMemory>
    requires { length heads.now < 2 ^ 32 }
    ensures { OnOk result (out.new
        ≡ out.old ++ (u32_bytes (length heads.now) ++ heads_bytes (map head_data heads.now))) }
{
    let mut waiting = HeadRow::new();
    waiting.push(&(heads.len() as u32).to_le_bytes());
    for head in heads {
        waiting.put_head(head, out)?;
    }
    waiting.send(out)
}

/// The bytes of two numbers.
#[inline(always)]
pub fn two_numbers(first: u16, second: u16) -> [u8; 4]
    ensures { result ≡ u16_bytes first ++ u16_bytes second }
{
    let first = first.to_le_bytes();
    let second = second.to_le_bytes();
    [first[0], first[1], second[0], second[1]]
}

/// Appends a term: how many bytes it shares with the one before, how many it adds, and these.
#[tactic(auto, unfolding(index_layout::specs::Layout::term_bytes))]
fn put_term(before: &[u8], term: &[u8], out: &mut Row<u8>) -> Result<(), NoMemory>
    requires { length term.now ≤ LONGEST_TERM }
    ensures { OnOk result (out.new ≡ out.old ++ term_bytes before.now term.now) }
{
    let shared = shared_len(before, term);
    let rest = &term[shared..];
    let head = two_numbers(shared as u16, rest.len() as u16);
    out.extend(&head)?;
    out.extend(rest)
}

/// Appends a term with the heads of its segments.
pub fn put_entry(
    before: &[u8],
    term: &[u8],
    heads: &[PayloadHead],
    out: &mut Row<u8>,
) -> Result<(), NoMemory>
    requires term { length term.now ≤ LONGEST_TERM }
    requires heads { length heads.now < 2 ^ 32 }
    ensures { OnOk result (out.new ≡ out.old ++ (term_bytes before.now term.now
        ++ (u32_bytes (length heads.now) ++ heads_bytes (map head_data heads.now)))) }
{
    put_term(before, term, out)?;
    put_heads(heads, out)
}

/// Appends all terms, each with the next of the heads.
pub fn put_terms(
    index: &ImpactIndex,
    heads: &[PayloadHead],
    out: &mut Row<u8>,
) -> Result<(), NoMemory>
    requires greatest { index.now.greatest ≤ GREATEST_IMPACT }
    requires heads { map head_data heads.now ≡ table_of (length index.now.names) (map term_data index.now.terms) }
    ensures { OnOk result (out.new ≡ out.old
        ++ terms_bytes [] (chosen_terms (length index.now.names) (map term_data index.now.terms))) }
{
    terms_have_documents();
    let mut before: &[u8] = b"";
    let mut left = heads;
    for term in index.terms.as_slice() {
        let bytes = term.term.as_str().as_bytes();
        let (here, rest) = left.split_at(term.segments.len());
        put_entry(before, bytes, here, out)?;
        before = bytes;
        left = rest;
    }
    Ok(())
}
