ghost use Rattle.jass_top.specs.Private.Causes.{Runs};
ghost use Rattle.jass_top.specs.VersionMeaning.{version_meaning};
ghost use Rattle.jass_top.specs.Worlds.{Outer};
ghost use Rattle.jass_top.specs.Private.Worlds.{with_output};

use crate::fixed_text::print_text;
use crate::stop::Stop;
use jass_base::Sink;

/// The program's name and version.
const TEXT: &str = "jass 0.1.0\n";

/// Prints the name and the version.
pub fn run_version<'a, O: Sink>(out: &mut O) -> Result<(), Stop<'a>>
    ensures { (beside : Outer) → Runs version_meaning
        (with_output O.Sink out.old beside) (with_output O.Sink out.new beside) result }
{
    print_text(out, TEXT)
}
