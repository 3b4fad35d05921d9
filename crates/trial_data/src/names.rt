ghost use Rattle.std.specs.Prelude.{◌≡◌, ◌++◌, decimal, OnOk};
ghost use Rattle.std.specs.String.{string_bytes};

use itoa::Buffer;
use jass_base::NoMemory;

/// Makes a text a letter and a number. The room of the text is kept from one name to the next.
pub(crate) fn put_name(name: &mut String, letter: &str, number: u32) -> Result<(), NoMemory>
    ensures { OnOk result (string_bytes name.new ≡ letter.now ++ decimal number) }
{
    let mut digits = Buffer::new();
    name.clear();
    name.push_str(letter)?;
    match name.push_str(digits.format(number)) {
        Ok(()) => Ok(()),
        Err(_) => Err(NoMemory),
    }
}
