ghost use Rattle.jass_words.specs.Words.{texts};
ghost use Rattle.jass_words.specs.Private.Reading.{ReadsFiles};

use crate::slots::{file_at, read_end};
use crate::word_fault::WordFault;

/// Reads two files, which differ as texts, and nothing behind them.
pub fn read_files<'a>(words: &'a [String]) -> Result<(&'a str, &'a str), WordFault>
    ensures { ReadsFiles (texts words.now) result }
{
    let Some(from) = file_at(words, 1, &[]) else {
        return Err(WordFault { which: 2 });
    };
    let Some(to) = file_at(words, 2, &[from]) else {
        return Err(WordFault { which: 3 });
    };
    read_end(words, 3)?;
    Ok((from, to))
}
