ghost use Rattle.std.specs.Prelude.{◌≡◌, ◌≤◌, ◌+◌, ◌++◌, [], length};
ghost use Rattle.jass_top.specs.Private.Causes.{Runs};
ghost use Rattle.jass_top.specs.HelpMeaning.{commands_text, form_text, help_meaning, row_text};
ghost use Rattle.jass_top.specs.Worlds.{Outer};
ghost use Rattle.jass_top.specs.Private.Worlds.{with_output};

use crate::stop::{OUTPUT, Stop};
use gathered_text::Buffer;
use jass_base::Sink;
use jass_words::{NAMES, Name};

/// What stands behind the commands: the statuses, and where the documents are.
const STATUSES: &[u8] = b"\
\n\
statuses:\n\
0  done\n\
1  no memory\n\
2  the words are no command\n\
3  an input is refused\n\
4  an input could not be read, or is missing\n\
5  an output could not be written\n\
6  2^30 bytes of the input were taken, and no line was end\n\
\n\
documents: README.md, docs/\n\
";

/// Prints how the program is called.
pub fn run_help<'a, O: Sink>(out: &mut O) -> Result<(), Stop<'a>>
    ensures { (beside : Outer) → Runs help_meaning
        (with_output O.Sink out.old beside) (with_output O.Sink out.new beside) result }
{
    let mut text = Buffer::new();
    push_commands(&mut text);
    text.push(STATUSES);
    match out.put(text.as_slice()) {
        Ok(()) => Ok(()),
        Err(_) => Err(Stop::WriteFault { name: OUTPUT }),
    }
}

/// Puts the commands, in the order of their table.
fn push_commands(text: &mut Buffer)
    requires { text.old ≡ [] }
    ensures commands { text.new ≡ commands_text }
    ensures few { length text.new ≤ 100000 }
{
    text.push(b"commands, with * behind the file that is written:\n");
    for name in NAMES {
        push_row(text, name);
    }
}

/// Puts the lines of a command.
fn push_row(text: &mut Buffer, name: Name)
    requires { length text.old ≤ 100000 }
    ensures row { text.new ≡ text.old ++ row_text name }
    ensures few { length text.new ≤ length text.old + 1100 }
{
    let row = name.row();
    text.push(row.word.as_bytes());
    push_form(text, row.form.as_bytes());
    text.push(b"\n    ");
    text.push(row.does.as_bytes());
    text.push(b"\n");
}

/// Puts the words behind a command's first one, where there are some.
fn push_form(text: &mut Buffer, form: &[u8])
    requires { length text.old + length form.now ≤ 110000 }
    ensures form { text.new ≡ text.old ++ form_text form.now }
    ensures few { length text.new ≤ length text.old + length form.now + 1 }
{
    if !form.is_empty() {
        text.push(b" ");
        text.push(form);
    }
}
