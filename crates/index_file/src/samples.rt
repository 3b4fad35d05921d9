ghost use Rattle.std.specs.Prelude.{ℕ, ◌≡◌, ◌<◌, List, slice_index, All, IfOk};
ghost use Rattle.index_layout.specs.Heads.{HeadData};
ghost use Rattle.index_file.specs.Private.Samples.{AreSamples, first_eight};
ghost use Rattle.index_file.specs.Private.Tables.{AreRows};

use crate::span::{Span, part};
use crate::term_row::TermRow;
use jass_base::{NoMemory, Row};
use std::alloc::Global;

/// The first eight bytes of a text as a number, the first the highest; a byte that the text doesn't
/// have counts 0. Of two texts the one with the lower number is the lower.
pub(crate) fn first_eight(text: &[u8]) -> u64
    ensures number { result ≡ first_eight text.now }
    ensures bytes { All (λ byte. byte < 256) text.now }
{
    let mut number = 0u64;
    'bytes: for i in 0..8usize {
        number = number * 256 + u64::from(byte_at(text, i));
    }
    number
}

/// The byte at a place; 0 behind the end.
#[inline(always)]
fn byte_at(text: &[u8], i: usize) -> u8
    ensures { result ≡ slice_index text.now i }
{
    if i < text.len() { text[i] } else { 0 }
}

/// The first bytes of each 64th term. They lie close together, so that a search which begins with
/// them meets few places that no cache holds.
pub(crate) fn sample_terms(
    alloc: Global,
    text: &[u8],
    rows: &[TermRow],
) -> Result<Row<u64>, NoMemory>
    requires rows { (heads : List HeadData) × AreRows heads text.now rows.now }
    ensures { IfOk result (λ samples. AreSamples text.now rows.now samples) }
{
    let mut samples = Row::new(alloc);
    'samples: for i in 0..(rows.len() - 1).div_ceil(64) {
        let span = Span {
            from: rows[64 * i].text,
            to: rows[64 * i + 1].text,
        };
        samples.push(first_eight(part(text, span)))?;
    }
    Ok(samples)
}
