ghost use Rattle.std.specs.Prelude.{ℕ, ◌≡◌, ◌≤◌, ◌<◌, ◌==◌, nat_lt, true, false, List, Ok, length, IfOk, IsErrOf};
ghost use Rattle.index_layout.specs.Bytes.{u64_in};
ghost use Rattle.index_layout.specs.Reading.{read_front};
ghost use Rattle.whole_files.specs.Windows.{AreFrom};
ghost use Rattle.index_file.specs.Contents.{IsContent, Reads, outside};
ghost use Rattle.index_file.specs.Answers.{AnswersFront, IsThere};
ghost use Rattle.index_file.specs.Pieces.{IsPiece};
ghost use Rattle.jass_base.specs.declared.limits.TheConstants.{LONGEST_FILE, MOST_DOCUMENTS, MOST_TERMS};

use crate::number::{u32_at, u64_at};
use crate::probing::{has_byte, has_size};
use index_layout::{OpenFault, OpenWhy, refused};
use jass_base::limits::{LONGEST_FILE, MOST_DOCUMENTS, MOST_POSTINGS, MOST_TERMS};
use jass_base::{Cabinet, ReadStop};
use std::alloc::Global;
use whole_files::Window;

/// What the first 40 bytes of a file tell: its size, the numbers of documents and terms, and the totals.
#[derive(Clone, Copy)]
pub struct Front {
    pub size: usize,
    pub docs: u32,
    pub terms: u32,
    pub postings: u64,
    pub greatest: u32,
}

/// Checks the front of a file, and that the file has the size that is told there.
pub fn check_front<C: Cabinet>(alloc: Global, files: &mut C, name: &str) -> Result<Front, OpenFault>
    ensures exact { (content : List ℕ) → IsContent (C.told files.old) name.now content → AnswersFront content result }
    ensures size { IfOk result (λ front. (40 ≤ front.size) × (front.size ≤ LONGEST_FILE)) }
    ensures few { IfOk result (λ front. (front.docs ≤ MOST_DOCUMENTS) × (front.terms ≤ MOST_TERMS)) }
    ensures there { IsThere (C.told files.old) name.now result }
    ensures reads { Reads (outside C.Cabinet files.old) (outside C.Cabinet files.new) name.now result }
{
    let is_long = has_byte(files, name, LONGEST_FILE)?;
    let mut window = Window::new(alloc);
    match window.fill(files, name, 40) {
        Ok(()) => {}
        Err(ReadStop::ReadFault) => return Err(OpenFault::ReadFault),
        Err(ReadStop::NoMemory) => return Err(OpenFault::NoMemory),
    }
    let size = told_size(window.bytes.as_slice());
    let fits = has_size(files, name, size)?;
    judge_front(window.bytes.as_slice(), is_long, fits)
}

/// The size that the front tells, 0 where it has fewer than 40 bytes.
fn told_size(bytes: &[u8]) -> u64
    ensures told { 40 ≤ length bytes.now → result ≡ u64_in bytes.now 8 }
    ensures short { length bytes.now < 40 → result ≡ 0 }
{
    if bytes.len() < 40 {
        return 0;
    }
    u64_at(bytes, 8)
}

/// The front of a file by its first bytes, where it is known whether the file is too long and whether it
/// has the size that is told.
fn judge_front(bytes: &[u8], is_long: bool, fits: bool) -> Result<Front, OpenFault>
    requires fits { is_long ≡ false → fits ≡ true → 40 ≤ length bytes.now
        → (40 ≤ u64_in bytes.now 8) × (u64_in bytes.now 8 ≤ LONGEST_FILE) }
    ensures exact { (content : List ℕ) → IsPiece content 0 40 bytes.now → is_long ≡ nat_lt LONGEST_FILE (length content)
        → (is_long ≡ false → 40 ≤ length content → fits ≡ (u64_in content 8 == length content))
        → AnswersFront content result }
    ensures long { IfOk result (λ _. 40 ≤ length bytes.now) }
    ensures short { IfOk result (λ _. is_long ≡ false) }
    ensures size { IfOk result (λ front. (40 ≤ front.size) × (front.size ≤ LONGEST_FILE)) }
    ensures unread { ¬ IsErrOf result OpenFault.ReadFault }
    ensures few { IfOk result (λ front. (front.docs ≤ MOST_DOCUMENTS) × (front.terms ≤ MOST_TERMS)) }
{
    if is_long {
        return Err(refused(LONGEST_FILE as usize, OpenWhy::Limit));
    }
    if bytes.starts_with(b"JASSIDX1") {
        return Err(refused(0, OpenWhy::Old));
    }
    if !bytes.starts_with(b"JASSIDX2") {
        return Err(refused(0, OpenWhy::Magic));
    }
    if bytes.len() < 40 || !fits {
        return Err(refused(8, OpenWhy::Length));
    }
    let docs = u32_at(bytes, 16);
    if docs > MOST_DOCUMENTS {
        return Err(refused(16, OpenWhy::Limit));
    }
    let terms = u32_at(bytes, 20);
    if terms > MOST_TERMS {
        return Err(refused(20, OpenWhy::Limit));
    }
    let postings = u64_at(bytes, 24);
    if postings > MOST_POSTINGS {
        return Err(refused(24, OpenWhy::Limit));
    }
    if u32_at(bytes, 36) != 0 {
        return Err(refused(36, OpenWhy::Totals));
    }
    Ok(Front {
        size: u64_at(bytes, 8) as usize,
        docs,
        terms,
        postings,
        greatest: u32_at(bytes, 32),
    })
}

/// The front of a file of so many bytes, by its first bytes.
pub(crate) fn read_front(bytes: &[u8], size: usize) -> Result<Front, OpenFault>
    requires within { length bytes.now ≤ size }
    ensures exact { size ≡ length bytes.now → AnswersFront bytes.now result }
    ensures told { IfOk result (λ front. (content : List ℕ) → size ≡ length content → AreFrom content 0 bytes.now
        → read_front content ≡ Ok (record { docs = front.docs; terms = front.terms })) }
    ensures unread { ¬ IsErrOf result OpenFault.ReadFault }
    ensures long { IfOk result (λ _. (40 ≤ length bytes.now) × (size ≤ LONGEST_FILE)) }
    ensures few { IfOk result (λ front. (front.docs ≤ MOST_DOCUMENTS) × (front.terms ≤ MOST_TERMS)) }
{
    let is_long = size > LONGEST_FILE as usize;
    let fits = told_size(bytes) == size as u64;
    judge_front(bytes, is_long, fits)
}
