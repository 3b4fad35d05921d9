ghost use Rattle.jass_top.specs.Private.Causes.{Runs};
ghost use Rattle.jass_top.specs.TextMeaning.{text_meaning};
ghost use Rattle.jass_top.specs.Worlds.{Outer};
ghost use Rattle.jass_top.specs.Private.Worlds.{with_output};

use crate::stop::{OUTPUT, Stop};
use jass_base::Sink;

/// Prints a fixed text on the output.
pub fn print_text<'a, O: Sink>(out: &mut O, text: &str) -> Result<(), Stop<'a>>
    ensures { (beside : Outer) → Runs (text_meaning text.now)
        (with_output O.Sink out.old beside) (with_output O.Sink out.new beside) result }
{
    match out.put(text.as_bytes()) {
        Ok(()) => Ok(()),
        Err(_) => Err(Stop::WriteFault { name: OUTPUT }),
    }
}
