ghost use Rattle.std.specs.Prelude.{ℕ, ◌≡◌, ◌≤◌, ◌==◌, nat_lt, true, ⊤, List, length, IfErr, IfOk};
ghost use Rattle.jass_base.specs.Outside.{OnContent};
ghost use Rattle.index_file.specs.Contents.{IsContent, Reads, outside};
ghost use Rattle.index_file.specs.Answers.{IsNotRefused};
ghost use Rattle.jass_base.specs.declared.limits.TheConstants.{LONGEST_FILE};

use index_layout::OpenFault;
use jass_base::Cabinet;
use jass_base::limits::LONGEST_FILE;

/// Whether a file has a byte at a place.
pub(crate) fn has_byte<C: Cabinet>(files: &mut C, name: &str, at: u64) -> Result<bool, OpenFault>
    ensures has { IfOk result (λ has. (content : List ℕ) → IsContent (C.told files.old) name.now content
        → has ≡ nat_lt at (length content)) }
    ensures there { IfOk result (λ _. OnContent (C.told files.old) name.now (λ content. ⊤)) }
    ensures unrefused { IfErr result (λ fault. IsNotRefused fault) }
    ensures reads { Reads (outside C.Cabinet files.old) (outside C.Cabinet files.new) name.now result }
{
    let mut byte = [0u8; 1];
    match files.read_at(name, at, &mut byte) {
        Ok(count) => Ok(count == 1),
        Err(_) => Err(OpenFault::ReadFault),
    }
}

/// Whether a file has so many bytes: 40 at least, and no more than an index file may have.
pub(crate) fn has_size<C: Cabinet>(files: &mut C, name: &str, size: u64) -> Result<bool, OpenFault>
    ensures has { IfOk result (λ has. (content : List ℕ) → IsContent (C.told files.old) name.now content
        → 40 ≤ length content → length content ≤ LONGEST_FILE → has ≡ (size == length content)) }
    ensures few { IfOk result (λ has. has ≡ true → (40 ≤ size) × (size ≤ LONGEST_FILE)) }
    ensures unrefused { IfErr result (λ fault. IsNotRefused fault) }
    ensures reads { Reads (outside C.Cabinet files.old) (outside C.Cabinet files.new) name.now result }
{
    if size < 40 || size > LONGEST_FILE {
        return Ok(false);
    }
    if !has_byte(files, name, size - 1)? {
        return Ok(false);
    }
    match has_byte(files, name, size) {
        Ok(longer) => Ok(!longer),
        Err(fault) => Err(fault),
    }
}
