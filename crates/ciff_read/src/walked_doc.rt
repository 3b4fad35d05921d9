ghost use Rattle.std.specs.Prelude.{◌≡◌, ◌≢◌, ◌<◌, ◌≤◌, ◌&&◌, ◌==◌, IsTrue, All, true, not, nat_lt, length, take, OnOk};
ghost use Rattle.std.specs.List.{list_all};
ghost use Rattle.jass_base.specs.Limits.{IsName};
ghost use Rattle.ciff_read.specs.Judging as judging;
ghost use Rattle.ciff_read.specs.Private.Recording.{recorded, numbered_as};
ghost use Rattle.ciff_read.specs.Refusals.{Answers};

use crate::doc_fields::DocFields;
use crate::refusal::{CiffFault, CiffWhy, refused};
use crate::text::text_of;
use jass_base::limits::LONGEST_NAME;
use jass_base::{DocRecord, Text};
use std::alloc::Global;
use std::simd::prelude::*;

/// A document's record whose fields were walked, and whose number is one of the file's. What
/// is left to judge is whether the number is new, then the name and the length.
#[derive(Clone, Copy)]
pub struct WalkedDoc<'a> {
    pub number: u32,
    pub fields: DocFields<'a>,
}

impl<'a> WalkedDoc<'a> {
    /// The record of the message at `at`, where nothing is left to refuse.
    pub fn finish(self, alloc: Global, at: usize, is_new: bool) -> Result<DocRecord, CiffFault>
        ensures exact { Answers (numbered_as self.entry) result (recorded (not is_new) at self.entry) }
        ensures new { OnOk result (is_new ≡ true) }
    {
        if !is_new {
            return Err(refused(at, CiffWhy::DocTwice));
        }
        let Some(name) = text_of(self.fields.name) else {
            return Err(refused(at, CiffWhy::Text));
        };
        if !is_name(name) {
            return Err(refused(at, CiffWhy::NameText));
        }
        if self.fields.length >= 1 << 31 {
            return Err(refused(at, CiffWhy::Range));
        }
        let Ok(name) = Text::from_str(alloc, name) else {
            return Err(CiffFault::NoMemory);
        };
        Ok(DocRecord {
            name,
            length: self.fields.length as u32,
        })
    }
}

/// Whether a text may be the name of a document.
fn is_name(name: &str) -> bool
    ensures test { result ≡ judging.is_name name.now }
    ensures name { IsTrue result → IsName name.now }
{
    !name.is_empty() && name.len() <= LONGEST_NAME && is_visible(name.as_bytes())
}

/// Whether no byte is a blank or a control character.
fn is_visible(bytes: &[u8]) -> bool
    ensures test { result ≡ list_all (λ b. nat_lt 32 b && not (b == 127)) bytes.now }
    ensures visible { IsTrue result → All (λ b. (32 < b) × (b ≢ 127)) bytes.now }
{
    if bytes.len() < 16 {
        return are_visible(bytes);
    }
    is_front_visible(bytes) && are_visible(&bytes[16..])
}

/// The same of the first sixteen bytes, which are looked at together.
#[inline(always)]
fn is_front_visible(bytes: &[u8]) -> bool
    requires { 16 ≤ length bytes.now }
    ensures { result ≡ (list_all (λ b. nat_lt 32 b) (take 16 bytes.now) && list_all (λ b. not (b == 127)) (take 16 bytes.now)) }
{
    let lanes = u8x16::from_slice(bytes);
    let above = lanes.simd_gt(u8x16::splat(32)).all();
    let other = lanes.simd_ne(u8x16::splat(127)).all();
    above & other
}

/// The same, byte by byte.
fn are_visible(bytes: &[u8]) -> bool
    ensures test { result ≡ list_all (λ b. nat_lt 32 b && not (b == 127)) bytes.now }
    ensures visible { IsTrue result → All (λ b. (32 < b) × (b ≢ 127)) bytes.now }
{
    bytes.iter().all(|byte| *byte > 32 && *byte != 127)
}
