ghost use Rattle.std.specs.Prelude.{◌≡◌, ◌≤◌, IfOk, length};
ghost use Rattle.std.specs.Option.{option_map};
ghost use Rattle.std.specs.String.{string_bytes};
ghost use Rattle.jass_words.specs.Words.{texts};
ghost use Rattle.jass.specs.CommandLine.{AreWords, word_of, long_word};
ghost use Rattle.jass.specs.Private.Words.{GivesWord};

use crate::arguments::Arguments;
use std::alloc::{AllocError, Global};
use std::env::FillError;

/// No word of a command is longer than 65,535 bytes.
const ROOM: usize = 65_536;

/// The words of the arguments without the program's name.
///
/// A word that is longer than any word of a command, or isn't UTF-8, stands here as a word of
/// that many `x`, which no command has at any place.
pub fn words_of<A: Arguments>(alloc: Global, arguments: &A) -> Result<Vec<String>, AllocError>
    ensures { IfOk result (λ words. AreWords (A.told arguments.now) (texts words.items)) }
{
    let mut buffer = [0u8; ROOM];
    words_through(alloc, arguments, &mut buffer)
}

/// The same, by way of a buffer.
fn words_through<A: Arguments>(
    alloc: Global,
    arguments: &A,
    buffer: &mut [u8],
) -> Result<Vec<String>, AllocError>
    requires { length buffer.old ≡ 65536 }
    ensures { IfOk result (λ words. AreWords (A.told arguments.now) (texts words.items)) }
{
    let mut words = Vec::new(alloc);
    'words: loop {
        let place = words.len() + 1;
        let Some(word) = word_at(alloc, arguments, place, buffer)? else {
            return Ok(words);
        };
        words.push(word)?;
    }
}

/// The word of the argument at a place; None where there is no such argument.
fn word_at<A: Arguments>(
    alloc: Global,
    arguments: &A,
    place: usize,
    buffer: &mut [u8],
) -> Result<Option<String>, AllocError>
    requires { length buffer.old ≡ 65536 }
    ensures { IfOk result (λ word. GivesWord (A.told arguments.now) place (option_map string_bytes word)) }
{
    match arguments.argument(place, buffer) {
        Ok(count) => Ok(Some(word_of(alloc, &buffer[..count])?)),
        Err(FillError::TooLong) => Ok(Some(no_word(alloc)?)),
        Err(FillError::NotPresent) => Ok(None),
    }
}

/// The bytes as a word, where they are UTF-8.
fn word_of(alloc: Global, bytes: &[u8]) -> Result<String, AllocError>
    requires { length bytes.now ≤ 65536 }
    ensures { IfOk result (λ word. string_bytes word ≡ word_of bytes.now) }
{
    match std::str::from_utf8(bytes) {
        Ok(text) => String::from_str(alloc, text),
        Err(_) => no_word(alloc),
    }
}

/// A word that no command has.
fn no_word(alloc: Global) -> Result<String, AllocError>
    ensures { IfOk result (λ word. string_bytes word ≡ long_word) }
{
    "x".repeat(alloc, ROOM)
}
